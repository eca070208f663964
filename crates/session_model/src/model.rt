// A plain model of a session: the events so far, from which everything is reckoned again at each call.
use super::history::{Event, Terms, admissions, clock_of, open_turn};
use super::standing::{Refused, Standing};
use judge::Plan;
use law::{Call, Outcome, Step, TurnNumbers, Work};
use std::alloc::{AllocError, Global};

// How a session is opened: on the plan, of which the model knows the terms.
#[derive(Clone, Copy)]
pub struct Setting<'a> {
    pub name: &'a str,
    pub plan: &'a Plan,
    pub terms: &'a [Terms],
    pub number: u32,
    pub blocks: u32,
}

#[derive(Drop)]
pub struct Model<'a> {
    pub heap: Global,
    pub setting: Setting<'a>,
    pub events: Vec<Event>,
}

// All that a turn tells: number, clock, row and block. Turns are compared by it, not by the core's own equality.
pub(crate) fn told(turn: TurnNumbers) -> [Option<u32>; 4] {
    [
        Some(turn.number),
        Some(turn.clock),
        turn.work.map(|work| work.row),
        turn.work.map(|work| work.block),
    ]
}

impl<'a> Model<'a> {
    // What the events come to.
    pub(crate) fn standing(&self) -> Result<Standing<'a>, AllocError> {
        let events = self.events.as_slice();
        Ok(Standing {
            setting: self.setting,
            events: events.len(),
            clock: clock_of(events),
            open: open_turn(events),
            jobs: admissions(self.heap, self.setting.terms, events)?,
        })
    }

    // The call that a step comes to, reckoned here, so that the model shares no code with the replay.
    pub(crate) fn called(&self, step: Step) -> Call {
        match step {
            Step::Given(call) => call,
            Step::ReportOpen { finished } => {
                // No Default: a turn of zeros means something here only.
                let none = TurnNumbers {
                    number: 0,
                    clock: 0,
                    work: None,
                };
                let turn = open_turn(self.events.as_slice()).unwrap_or(none);
                Call::Report { turn, finished }
            }
        }
    }

    // Adds an accepted report, and says what became of the job.
    fn accept(&mut self, work: Option<Work>, finished: bool) -> Result<Outcome, AllocError> {
        let row = work.map(|work| work.row);
        self.events.push(Event::Reported { row, finished })?;
        let Some(row) = row else {
            return Ok(Outcome::Idle);
        };
        if self.standing()?.unended(row).is_some() {
            Ok(Outcome::GoesOn)
        } else if finished {
            Ok(Outcome::Finished)
        } else {
            Ok(Outcome::Cut)
        }
    }

    // Refuses a report of another turn than the open one, and of an idle turn as finished.
    fn reportable(&self, turn: TurnNumbers, finished: bool) -> Result<(), Refused> {
        let events = self.events.as_slice();
        let number = if open_turn(events).map(told) != Some(told(turn)) {
            21
        } else if finished && turn.work.is_none() {
            22
        } else {
            return Ok(());
        };
        let place = clock_of(events);
        Err(Refused { number, place })
    }

    // An accepted report is added to the history. A refused one needs no list of the jobs.
    pub(crate) fn report(
        &mut self,
        turn: TurnNumbers,
        finished: bool,
    ) -> Result<Result<Outcome, Refused>, AllocError> {
        match self.reportable(turn, finished) {
            Ok(()) => Ok(Ok(self.accept(turn.work, finished)?)),
            Err(refused) => Ok(Err(refused)),
        }
    }
}
