// A trace: what happened in a session so far, as its answers tell.
ghost use Rattle.std.specs.Prelude.{◌≡◌, length};

use super::marks::Mark;
use law::{Outcome, Work};
use row::Kind;

// How a job ended, the clock then, and whether an abnormal arrival was admitted before.
#[derive(Clone, Copy)]
pub struct End {
    pub clock: usize,
    pub outcome: Outcome,
    pub disturbed: bool,
}

// An admitted arrival.
#[derive(Clone, Copy)]
pub struct JobLine {
    pub row: u32,
    pub kind: Kind,
    pub arrival: usize,
    pub end: Option<End>,
}

// A row's unended job: its place among the jobs, and when it arrived.
#[derive(Clone, Copy)]
pub(crate) struct Unended {
    pub(crate) place: usize,
    pub(crate) arrival: usize,
}

// One tick: the mode in it, whether it was idle, and what each row did. An idle tick has a mode too, so `idle` is no option of it.
#[derive(Clone, Copy)]
pub struct Tick {
    pub mode: Kind,
    pub idle: bool,
    pub marks: [Mark; 32],
}

// What table and timeline are printed from.
#[derive(Drop)]
pub struct Trace {
    pub(crate) mode: Kind,
    // what the open turn is for
    pub(crate) work: Option<Work>,
    // of each row by its number, as the marks of a tick are
    pub(crate) unended: [Option<Unended>; 32],
    // The place of the last abnormal job, and 0 before the first: no job's place is below 0, so an option would say no more.
    pub(crate) abnormal: usize,
    pub(crate) jobs: Vec<JobLine>,
    pub(crate) ticks: Vec<Tick>,
    ghost places: { length unended ≡ 32 },
}
