// Begin: opens a turn for the work that is due.
ghost use Rattle.std.specs.Prelude.{◌≡◌};
ghost use Rattle.law.specs.Checks.{first_fault, start_checks};
ghost use Rattle.law.specs.Rules.{WorkDue};
ghost use Rattle.law.specs.declared.calls.Call.TheVariants.{Begin};
ghost use Rattle.session.specs.Answers.{begun, found};
ghost use Rattle.session.specs.View.{job_of, view, Tied, Allowed, Next, Extended};

use super::faults::{SessionFault, refuse_if};
use super::session::{LAST_CLOCK, Session};
use super::turn::Turn;
use board::Board;
use law::{TurnNumbers, Work};
use pool::Pool;
use row::Refusal;

impl<'p, B: Board, P: Pool> Session<'p, B, P> {
    // Opens a turn for the board's first row, or an idle one where the board is empty.
    pub fn begin(&mut self) -> Result<Turn, SessionFault>
        ensures rule { Tied B.Board.rows self.old → Allowed P.Pool.free self.old Begin (begun result) }
        ensures next { Next P.Pool.free self.old Begin (begun result) self.new }
        ensures history { Extended B.Board.rows P.Pool.free self.old Begin (begun result) self.new }
    {
        self.ready_to_start()?;
        let numbers = TurnNumbers {
            number: self.number,
            clock: self.clock,
            work: self.due(),
        };
        self.turn = Some(numbers);
        Ok(Turn { numbers })
    }

    // Whether an arrival or a turn can come now, or why not.
    pub(crate) fn ready_to_start(&self) -> Result<(), SessionFault>
        ensures { found result ≡ first_fault (start_checks (view P.Pool.free self.now)) }
    {
        refuse_if(self.turn.is_some(), Refusal::TurnOpen, self.clock)?;
        refuse_if(self.clock == LAST_CLOCK, Refusal::ClockFull, self.clock)
    }

    // The board's first row and the block that its job holds.
    fn due(&self) -> Option<Work>
        ensures { Tied B.Board.rows self.now → WorkDue (job_of self.now) result }
    {
        let row = self.board.first()?;
        let job = self.job(row)?;
        Some(Work {
            row,
            block: job.block,
        })
    }
}
