// Arrive: admits a job of a row, or says why not.
ghost use Rattle.std.specs.Prelude.{◌≡◌, ◌<◌, not, length};
ghost use Rattle.row.specs.Rows.{is_track};
ghost use Rattle.law.specs.Checks.{first_fault, arrive_checks};
ghost use Rattle.law.specs.State.{row_at};
ghost use Rattle.law.specs.declared.calls.Call.TheVariants.{Arrive};
ghost use Rattle.session.specs.Answers.{admitted};
ghost use Rattle.session.specs.Arrivals.{RowOf, Checked, Admissible, Admitted};
ghost use Rattle.session.specs.View.{rows_in, view, Allowed, Next, Extended};

use super::faults::{SessionFault, refuse_if};
use super::row_state::RowState;
use super::session::Session;
use board::Board;
use law::Job;
use pool::Pool;
use row::{Kind, Refusal, Row};

impl<'p, B: Board, P: Pool> Session<'p, B, P> {
    // Admits a job of `row` and answers the block that it holds, or says why not.
    pub fn arrive(&mut self, row: u32, kind: Kind) -> Result<u32, SessionFault>
        ensures rule { Allowed P.Pool.free self.old (Arrive row kind) (admitted result) }
        ensures next { Next P.Pool.free self.old (Arrive row kind) (admitted result) self.new }
        ensures history { Extended B.Board.rows P.Pool.free self.old (Arrive row kind) (admitted result) self.new }
    {
        let asked = self.admissible(row, kind)?;
        let block = self.pool.take().ok_or(SessionFault {
            refusal: Refusal::NoFreeBlock,
            place: row,
        })?;
        self.admit(asked, row, kind, block);
        Ok(block)
    }

    // Makes a job that holds `block`.
    fn admit(&mut self, asked: Row, row: u32, kind: Kind, block: u32)
        requires { row < length (rows_in self.old) }
        ensures { Admitted B.Board.rows self.old asked row kind block self.new }
    {
        let job = Job {
            kind,
            arrival: self.clock,
            block,
            ticks: 0,
        };
        self.rows[row as usize] = RowState {
            job: Some(job),
            ready: self.clock + asked.period(),
        };
        self.mode = if kind == Kind::Abnormal {
            kind
        } else {
            self.mode
        };
        self.board.add(row);
    }

    // The row that may arrive, or why it may not. Whether a block is wanting is seen when one is taken.
    fn admissible(&self, row: u32, kind: Kind) -> Result<Row, SessionFault>
        ensures { Admissible (rows_in self.now) (view P.Pool.free self.now) row kind result }
    {
        self.ready_to_start()?;
        let asked = self.row(row).ok_or(SessionFault {
            refusal: Refusal::NotInPlan,
            place: row,
        })?;
        self.may_arrive(!asked.is_track(), row, kind)?;
        Ok(asked)
    }

    // The row of the plan with this number.
    pub(crate) fn row(&self, row: u32) -> Option<Row>
        ensures { RowOf (rows_in self.now) row result }
    {
        self.plan.row(row as usize)
    }

    // Whether a row of the plan may arrive, or why not.
    fn may_arrive(&self, helper: bool, row: u32, kind: Kind) -> Result<(), SessionFault>
        requires in_plan { row < length (rows_in self.now) }
        requires helper { helper ≡ not (is_track (row_at (rows_in self.now) row)) }
        ensures { Checked (first_fault (arrive_checks (rows_in self.now) (view P.Pool.free self.now) row kind)) (view P.Pool.free self.now) row result }
    {
        let state = &self.rows[row as usize];
        // The processor guesses kind and mode well, and whether a row is a helper badly: so that is looked at last.
        refuse_if(
            kind == Kind::Abnormal && helper,
            Refusal::AbnormalHelper,
            row,
        )?;
        refuse_if(self.clock < state.ready, Refusal::TooEarly, row)?;
        refuse_if(
            self.mode == Kind::Abnormal && helper,
            Refusal::HelperInAbnormalMode,
            row,
        )?;
        refuse_if(state.job.is_some(), Refusal::JobNotEnded, row)
    }
}
