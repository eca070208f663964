// A tick at once: begin and report in one call.
ghost use Rattle.session.specs.Ticks.{RunsDue};

use super::faults::SessionFault;
use super::session::Session;
use board::Board;
use law::Outcome;
use pool::Pool;

impl<'p, B: Board, P: Pool> Session<'p, B, P> {
    // Gives one tick to the work that is due. The report of a turn that was just begun is never refused.
    pub fn run_due(&mut self) -> Result<Outcome, SessionFault>
        ensures { RunsDue B.Board.rows P.Pool.free self.old result self.new }
    {
        let turn = self.begin()?;
        match self.report(turn, false) {
            Ok(outcome) => Ok(outcome),
            Err(_refused) => unreachable(),
        }
    }
}
