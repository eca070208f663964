// Replay: a session from opening to closing, of any list of calls or steps.
ghost use Rattle.std.specs.Prelude.{◌≡◌, ℕ, ◌≤◌, List, false, length, is_some, slice_index_or};
ghost use Rattle.judge.specs.Plan.{rows_of};
ghost use Rattle.law.specs.Answer.{Answer};
ghost use Rattle.law.specs.History.{job_at, free_at};
ghost use Rattle.law.specs.Law.{Sound, Throughout};
ghost use Rattle.law.specs.Rules.{Lawful};
ghost use Rattle.law.specs.declared.calls.Reply.TheVariants.{Done};
ghost use Rattle.law.specs.declared.calls.Call.{Call};
ghost use Rattle.law.specs.declared.calls.Step.{Step};
ghost use Rattle.law.specs.declared.calls.Outcome.TheVariants.{Idle};
ghost use Rattle.session.specs.Replays.{replayed, replayed_by, replayed_steps};
ghost use Rattle.session.specs.View.{Extended};

use super::session::Session;
use super::turn::Turn;
use board::Board;
use judge::Plan;
use law::{Answer, Call, Line, Reply, Step};
use pool::Pool;

// Opens a session, makes the call of each line for which the log has room, logs its answer, and closes the session. A report may
// bring any turn, or, in a list of steps, the one that is open then.
pub fn replay<B: Board, P: Pool, L: Line>(
    plan: &Plan,
    board: B,
    pool: P,
    number: u32,
    lines: &[L],
    log: &mut [Answer],
) -> (B, P)
    ensures lawful { Lawful (rows_of plan.now) number (P.Pool.free pool) (replayed_by L.Line.makes L.Line.past lines.now log.new) }
    ensures sound { Throughout (Sound (rows_of plan.now) (P.Pool.free pool)) (replayed_by L.Line.makes L.Line.past lines.now log.new) }
    ensures board { (q : ℕ) → slice_index_or (B.Board.rows result.0) q false ≡ is_some (job_at (rows_of plan.now) (replayed_by L.Line.makes L.Line.past lines.now log.new) q) }
    ensures pool { P.Pool.free result.1 ≡ free_at (rows_of plan.now) (P.Pool.free pool) (replayed_by L.Line.makes L.Line.past lines.now log.new) }
    ensures rest { (k : ℕ) → length lines.now ≤ k → slice_index_or log.new k (Ok (Done Idle)) ≡ slice_index_or log.old k (Ok (Done Idle)) }
{
    let mut session = Session::open(plan, board, pool, number);
    let room = log.len();
    // by place: of a log that `iter_mut` lent a proof knows only the length
    for (i, line) in lines.iter().take(room).enumerate() {
        let call = line.call(session.turn);
        log[i] = session.perform(call);
    }
    session.close()
}

// Of a list of calls the contract of `replay` speaks of `replayed`, and of a list of steps of `replayed_steps`.
pub fn lists_replayed()
    ensures calls { (calls : List Call) (log : List Answer) → replayed_by ⟦<Call as Line>⟧.makes ⟦<Call as Line>⟧.past calls log ≡ replayed calls log }
    ensures steps { (steps : List Step) (log : List Answer) → replayed_by ⟦<Step as Line>⟧.makes ⟦<Step as Line>⟧.past steps log ≡ replayed_steps steps log }
{}

impl<'p, B: Board, P: Pool> Session<'p, B, P> {
    // Makes a call, of which a turn is told by its numbers.
    pub(crate) fn perform(&mut self, call: Call) -> Answer
        ensures { Extended B.Board.rows P.Pool.free self.old call result self.new }
    {
        match call {
            Call::Arrive { row, kind } => Ok(Reply::Block(self.arrive(row, kind)?)),
            Call::Begin => {
                let Turn { numbers } = self.begin()?;
                Ok(Reply::Turn(numbers))
            }
            Call::Report { turn, finished } => {
                Ok(Reply::Done(self.report_numbers(turn, finished)?))
            }
        }
    }
}
