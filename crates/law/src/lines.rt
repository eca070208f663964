// Lines of a list that is replayed, and the calls that they make.
ghost use Rattle.std.specs.Prelude.{◌≡◌, Option};
ghost use Rattle.law.specs.History.{made};
ghost use Rattle.law.specs.declared.calls.Call.{Call};
ghost use Rattle.law.specs.declared.calls.Call.TheVariants.{Begin};
ghost use Rattle.law.specs.declared.calls.Step.TheVariants.{Given};
ghost use Rattle.law.specs.declared.calls.TurnNumbers.{TurnNumbers};

use super::calls::{Call, Step, TurnNumbers};

// A line of a list that is replayed.
pub trait Line: Copy {
    // the call that a line makes when this turn is open
    ghost makes: { Option TurnNumbers → Self → Call };

    // the line that is read past the end of a list
    ghost past: { Self };

    // The call that the line makes when this turn is open.
    fn call(self, turn: Option<TurnNumbers>) -> Call
        ensures { result ≡ makes turn self };
}

// A call is made as it stands.
impl Line for Call {
    ghost makes = { λ turn c. c };

    ghost past = { Begin };

    fn call(self, _turn: Option<TurnNumbers>) -> Call {
        self
    }
}

// What a report of the open turn brings where no turn is open. No Default: only here do zeros mean anything.
const NO_TURN: TurnNumbers = TurnNumbers {
    number: 0,
    clock: 0,
    work: None,
};

// A report of the open turn brings whichever is open.
impl Line for Step {
    ghost makes = { made };

    ghost past = { Given Begin };

    fn call(self, turn: Option<TurnNumbers>) -> Call {
        match self {
            Step::Given(call) => call,
            Step::ReportOpen { finished } => Call::Report {
                turn: turn.unwrap_or(NO_TURN),
                finished,
            },
        }
    }
}
