// Following a session by its answers.
ghost use Rattle.std.specs.Prelude.{◌≡◌, false, [], replicate, None, OnOk, nat_lt, slice_index_or, slice_set};
ghost use Rattle.row.specs.declared.rows.Kind.TheVariants.{Normal};
ghost use Rattle.law.specs.declared.calls.Outcome.TheVariants.{Idle};
ghost use Rattle.traces.specs.declared.trace.JobLine.{JobLine};
ghost use Rattle.traces.specs.Traces.{clock_of, outcome_of, Column, ended_by, left_by, quiet, ended_line, Admitted, Ticked, Noted};

use super::marks::Mark;
use super::trace::{End, JobLine, Tick, Trace, Unended};
use law::{Answer, Call, Outcome, Reply, Step, Work};
use row::Kind;
use std::alloc::{AllocError, Global};

impl Trace {
    // The trace of a session that was just opened.
    pub fn new(heap: Global) -> Trace
        ensures mode { result.mode ≡ Normal }
        ensures work { result.work ≡ None }
        ensures unended { result.unended ≡ replicate 32 None }
        ensures abnormal { result.abnormal ≡ 0 }
        ensures jobs { result.jobs.items ≡ [] }
        ensures ticks { result.ticks.items ≡ [] }
    {
        Trace {
            mode: Kind::Normal,
            work: None,
            unended: [None; 32],
            abnormal: 0,
            jobs: Vec::new(heap),
            ticks: Vec::new(heap),
        }
    }

    // The clock, which counts the ticks.
    pub fn clock(&self) -> usize
        ensures { result ≡ clock_of self.now }
    {
        self.ticks.len()
    }

    // The jobs in the order of their arrival.
    pub fn jobs(&self) -> &[JobLine]
        ensures { result.now ≡ self.now.jobs.items }
    {
        self.jobs.as_slice()
    }

    // The ticks so far, each with what every row did in it.
    pub fn ticks(&self) -> &[Tick]
        ensures { result.now ≡ self.now.ticks.items }
    {
        self.ticks.as_slice()
    }

    // Whether an abnormal job came behind the job at this place.
    pub fn has_abnormal_behind(&self, place: usize) -> bool
        ensures { result ≡ nat_lt place self.now.abnormal }
    {
        place < self.abnormal
    }

    // The column of the clock as it stands, of which no tick has gone by: every unended job waits.
    pub fn last_column(&self) -> Tick
        ensures { Column self.now None Idle false result }
    {
        self.column(None, Outcome::Idle, false)
    }

    // Takes in the answer to a step.
    pub fn note(&mut self, step: Step, answer: Answer) -> Result<(), AllocError>
        ensures { OnOk result (Noted step answer self.old self.new) }
    {
        match answer {
            Ok(Reply::Block(_)) => match step {
                Step::Given(Call::Arrive { row, kind }) => self.admit(row, kind),
                _ => Ok(()),
            },
            Ok(Reply::Turn(turn)) => {
                self.work = turn.work;
                Ok(())
            }
            Ok(Reply::Done(outcome)) => self.tick(outcome),
            Err(_) => Ok(()),
        }
    }

    fn admit(&mut self, row: u32, kind: Kind) -> Result<(), AllocError>
        ensures { OnOk result (Admitted self.old row kind self.new) }
    {
        let place = self.jobs.len();
        let arrival = self.clock();
        self.jobs.push(JobLine {
            row,
            kind,
            arrival,
            end: None,
        })?;
        put(
            &mut self.unended,
            row as usize,
            Some(Unended { place, arrival }),
        );
        if kind == Kind::Abnormal {
            self.mode = Kind::Abnormal;
            self.abnormal = place;
        }
        Ok(())
    }

    // One tick more, for the work of the open turn.
    fn tick(&mut self, outcome: Outcome) -> Result<(), AllocError>
        ensures { OnOk result (Ticked self.old outcome self.new) }
    {
        let work = self.work;
        let column = self.column(work, outcome, work.is_none());
        self.ticks.push(column)?;
        if let Some(job) = take_ended(&mut self.unended, work, outcome) {
            let end = End {
                clock: self.clock(),
                outcome,
                disturbed: self.has_abnormal_behind(job.place),
            };
            end_line(&mut self.jobs, job.place, end);
        }
        if is_quiet(&self.unended) {
            self.mode = Kind::Normal;
        }
        self.work = None;
        Ok(())
    }

    // The column of the next tick, where it goes to this work.
    fn column(&self, work: Option<Work>, outcome: Outcome, idle: bool) -> Tick
        ensures { Column self.now work outcome idle result }
    {
        let mut marks = [Mark::Absent; 32];
        for (row, job) in self.unended.iter().enumerate() {
            let arrives = job.map(|job| job.arrival == self.clock());
            marks[row] = Mark::new(arrives, outcome_of(work, outcome, row));
        }
        Tick {
            mode: self.mode,
            idle,
            marks,
        }
    }
}

// What became of the job of a row, if the tick went to the row.
fn outcome_of(work: Option<Work>, outcome: Outcome, row: usize) -> Option<Outcome>
    ensures { result ≡ outcome_of work outcome row }
{
    work.is_some_and(|work| work.row as usize == row)
        .then_some(outcome)
}

// Makes this the unended job of a row; a number that is no row's changes nothing.
// By place, here and below: of a slice that `get_mut` lent a proof knows only the length.
fn put(jobs: &mut [Option<Unended>], row: usize, job: Option<Unended>)
    ensures { jobs.new ≡ slice_set jobs.old row job }
{
    if row < jobs.len() {
        jobs[row] = job;
    }
}

// Takes the job that a tick ends, if it ends one, off the unended ones.
fn take_ended(jobs: &mut [Option<Unended>], work: Option<Work>, outcome: Outcome) -> Option<Unended>
    ensures ended { result ≡ ended_by jobs.old work outcome }
    ensures left { jobs.new ≡ left_by jobs.old work outcome }
{
    let row = work?.row as usize;
    if !matches!(outcome, Outcome::Finished | Outcome::Cut) {
        return None;
    }
    let ended = jobs.get(row).copied().flatten();
    put(jobs, row, None);
    ended
}

// Writes the end of the job at a place.
fn end_line(jobs: &mut Vec<JobLine>, place: usize, end: End)
    ensures { (d : JobLine) → jobs.new.items ≡ slice_set jobs.old.items place (ended_line (slice_index_or jobs.old.items place d) end) }
{
    if place < jobs.len() {
        jobs[place].end = Some(end);
    }
}

// Whether no job is unended.
fn is_quiet(jobs: &[Option<Unended>]) -> bool
    ensures { result ≡ quiet jobs.now }
{
    jobs.iter().all(|job| job.is_none())
}
