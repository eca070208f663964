// Report: one tick for the job that the open turn is for.
ghost use Rattle.std.specs.Prelude.{◌≡◌, length, if◌then◌else◌, Some, Ok, Err};
ghost use Rattle.row.specs.declared.rows.Kind.TheVariants.{Normal};
ghost use Rattle.law.specs.declared.calls.Call.TheVariants.{Report};
ghost use Rattle.law.specs.declared.calls.Outcome.TheVariants.{Finished, Cut};
ghost use Rattle.law.specs.Checks.{first_fault, report_checks};
ghost use Rattle.law.specs.Rules.{outcome};
ghost use Rattle.law.specs.State.{after_tick, budget_of, quiet_below};
ghost use Rattle.session.specs.Answers.{found, settled, reported};
ghost use Rattle.session.specs.Reports.{Worked};
ghost use Rattle.session.specs.View.{rows_in, job_of, view, Tied, Allowed, Next, Extended};

use super::faults::{SessionFault, refuse_if};
use super::session::Session;
use super::turn::{NotReported, Turn};
use board::Board;
use law::{Job, Outcome, TurnNumbers, Work};
use pool::Pool;
use row::{Kind, Refusal, Row};

impl<'p, B: Board, P: Pool> Session<'p, B, P> {
    // Reports the open turn, or hands the turn back with the reason why not.
    pub fn report(&mut self, turn: Turn, finished: bool) -> Result<Outcome, NotReported>
        ensures rule { Allowed P.Pool.free self.old (Report turn.numbers finished) (reported result) }
        ensures next { Tied B.Board.rows self.old → Next P.Pool.free self.old (Report turn.numbers finished) (reported result) self.new }
        ensures history { Extended B.Board.rows P.Pool.free self.old (Report turn.numbers finished) (reported result) self.new }
        ensures token { elim result [ Ok _ ↦ Unit {0} | Err e ↦ e.turn ≡ turn ] }
    {
        // The turn goes back or is taken apart, so no closure of `map_err` can hold it.
        match self.report_numbers(turn.numbers, finished) {
            Err(fault) => Err(NotReported { fault, turn }),
            Ok(outcome) => {
                let Turn { numbers: _numbers } = turn;
                Ok(outcome)
            }
        }
    }

    // The same of a turn that is told by its numbers.
    pub(crate) fn report_numbers(
        &mut self,
        turn: TurnNumbers,
        finished: bool,
    ) -> Result<Outcome, SessionFault>
        ensures rule { Allowed P.Pool.free self.old (Report turn finished) (settled result) }
        ensures next { Tied B.Board.rows self.old → Next P.Pool.free self.old (Report turn finished) (settled result) self.new }
        ensures history { Extended B.Board.rows P.Pool.free self.old (Report turn finished) (settled result) self.new }
    {
        self.reportable(turn, finished)?;
        let outcome = self.work(turn.work, finished);
        self.mode = self.mode_after();
        self.clock += 1;
        self.turn = None;
        Ok(outcome)
    }

    // Whether a turn can be reported, or why not.
    fn reportable(&self, turn: TurnNumbers, finished: bool) -> Result<(), SessionFault>
        ensures { found result ≡ first_fault (report_checks (view P.Pool.free self.now) turn finished) }
    {
        refuse_if(self.turn != Some(turn), Refusal::NotOpenTurn, self.clock)?;
        refuse_if(
            turn.work.is_none() && finished,
            Refusal::IdleFinished,
            self.clock,
        )
    }

    // One tick for what the turn was for, if anything.
    fn work(&mut self, work: Option<Work>, finished: bool) -> Outcome
        ensures outcome { result ≡ outcome (rows_in self.old) (view P.Pool.free self.old) finished work }
        ensures worked { Worked B.Board.rows P.Pool.free self.old work finished self.new }
    {
        match work {
            None => Outcome::Idle,
            Some(work) => self.tick(work, finished),
        }
    }

    // One tick for the job of the row that the turn was for. Where that row has none, nothing changes.
    fn tick(&mut self, work: Work, finished: bool) -> Outcome
        ensures outcome { result ≡ outcome (rows_in self.old) (view P.Pool.free self.old) finished (Some work) }
        ensures worked { Worked B.Board.rows P.Pool.free self.old (Some work) finished self.new }
    {
        let Some(asked) = self.row(work.row) else {
            return Outcome::Idle;
        };
        let Some(job) = self.job(work.row) else {
            return Outcome::Idle;
        };
        let left = after_tick(asked, finished, job);
        self.rows[work.row as usize].job = left;
        if left.is_some() {
            return Outcome::GoesOn;
        }
        self.board.remove(work.row);
        self.pool.give(job.block);
        ending(finished)
    }

    // The mode, which becomes normal when nothing is unended.
    fn mode_after(&self) -> Kind
        ensures { Tied B.Board.rows self.now → result ≡ (if quiet_below (length (rows_in self.now)) (job_of self.now) then Normal else self.now.mode) }
    {
        match self.board.first() {
            None => Kind::Normal,
            Some(_) => self.mode,
        }
    }
}

// What is left of a job after one more tick: nothing where it is finished or has had its budget.
fn after_tick(asked: Row, finished: bool, job: Job) -> Option<Job>
    ensures { result ≡ after_tick asked finished (Some job) }
{
    if finished || job.ticks >= budget(asked, job.kind) - 1 {
        return None;
    }
    Some(Job {
        ticks: job.ticks + 1,
        ..job
    })
}

// What became of a job that has ended.
fn ending(finished: bool) -> Outcome
    ensures { result ≡ (if finished then Finished else Cut) }
{
    if finished {
        Outcome::Finished
    } else {
        Outcome::Cut
    }
}

fn budget(asked: Row, kind: Kind) -> u32
    ensures { result ≡ budget_of asked kind }
{
    match kind {
        Kind::Normal => asked.short(),
        Kind::Abnormal => asked.long(),
    }
}
