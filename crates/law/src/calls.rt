// What a host may ask of a session and what the session may answer, as plain values.
use row::{Fault, Kind};

// What a turn is for: a row and the block that its job holds.
#[derive(Clone, Copy, Debug, PartialEq, Eq)]
pub struct Work {
    pub row: u32,
    pub block: u32,
}

// All that a turn tells. An idle turn has no work.
#[derive(Clone, Copy, Debug, PartialEq, Eq)]
pub struct TurnNumbers {
    pub number: u32,
    pub clock: u32,
    pub work: Option<Work>,
}

// What may be asked of a session. A report brings a turn, from wherever.
#[derive(Clone, Copy, Debug, PartialEq, Eq)]
pub enum Call {
    Arrive { row: u32, kind: Kind },
    Begin,
    Report { turn: TurnNumbers, finished: bool },
}

// A line of a list that is replayed: a call as it is given, or a report of whichever turn is open then.
#[derive(Clone, Copy, Debug, PartialEq, Eq)]
pub enum Step {
    Given(Call),
    ReportOpen { finished: bool },
}

// What became of the job that a reported turn was for.
#[derive(Clone, Copy, Debug, PartialEq, Eq)]
pub enum Outcome {
    // the turn had no job
    Idle,
    GoesOn,
    Finished,
    // the budget ended an unfinished job
    Cut,
}

// What a session answers to a call that it accepts: the block of an arrival, the turn begun, or what became of a report.
#[derive(Clone, Copy, Debug, PartialEq, Eq)]
pub enum Reply {
    Block(u32),
    Turn(TurnNumbers),
    Done(Outcome),
}

// What a session answers: the reply to a call that it accepts, or why it refuses.
pub type Answer = Result<Reply, Fault>;

// An unended job: an admitted arrival that has neither finished nor had its budget.
#[derive(Clone, Copy, Debug, PartialEq, Eq)]
pub struct Job {
    pub kind: Kind,
    pub arrival: u32,
    pub block: u32,
    pub ticks: u32,
}
