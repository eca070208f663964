// What a row does in one tick, and the mark that stands for it.
ghost use Rattle.std.specs.Prelude.{◌≡◌};
ghost use Rattle.traces.specs.Marks.{mark_of, symbol_of};

use law::Outcome;

// What a row does in a tick. The flag says whether its job arrives in that tick.
#[derive(Clone, Copy)]
pub enum Mark {
    // the row has no job
    Absent,
    Waits { arrives: bool },
    Runs { arrives: bool },
    Finishes { arrives: bool },
    IsCut { arrives: bool },
}

impl Mark {
    // The mark of a row. `arrives` says of its unended job, if it has one, whether it arrived at this clock; `outcome` is what
    // became of the job where the tick went to the row.
    pub fn new(arrives: Option<bool>, outcome: Option<Outcome>) -> Mark
        ensures { result ≡ mark_of arrives outcome }
    {
        let Some(arrives) = arrives else {
            return Mark::Absent;
        };
        match outcome {
            None | Some(Outcome::Idle) => Mark::Waits { arrives },
            Some(Outcome::GoesOn) => Mark::Runs { arrives },
            Some(Outcome::Finished) => Mark::Finishes { arrives },
            Some(Outcome::Cut) => Mark::IsCut { arrives },
        }
    }
}

// The sign that stands for the mark in a timeline.
impl From<Mark> for char {
    ghost from_gives = { λ mark sign. sign ≡ symbol_of mark };

    fn from(mark: Mark) -> char {
        match mark {
            Mark::Absent => ' ',
            Mark::Waits { arrives: true } => '(',
            Mark::Waits { arrives: false } => '.',
            Mark::Runs { arrives: true } => '[',
            Mark::Runs { arrives: false } => '#',
            Mark::Finishes { arrives: true } => 'I',
            Mark::Finishes { arrives: false } => ']',
            Mark::IsCut { arrives: true } => 'X',
            Mark::IsCut { arrives: false } => 'x',
        }
    }
}
