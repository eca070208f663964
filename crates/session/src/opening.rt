// Opening and closing a session, and what may be asked of it at any time.
ghost use Rattle.std.specs.Prelude.{◌≡◌, ◌≤◌, [], length, None};
ghost use Rattle.judge.specs.Plan.{rows_of};
ghost use Rattle.session.specs.View.{rows_in, job_of, Follows, SoundSoFar};

use super::row_state::NEW_ROW;
use super::session::Session;
use board::Board;
use judge::Plan;
use law::Job;
use pool::Pool;
use row::Kind;

impl<'p, B: Board, P: Pool> Session<'p, B, P> {
    // A session at clock 0 in normal mode, with nothing on the board.
    pub fn open(plan: &'p Plan, mut board: B, pool: P, number: u32) -> Session<'p, B, P>
        ensures follows { Follows (rows_of plan.now) number (P.Pool.free pool) [] B.Board.rows P.Pool.free result }
        ensures pool { result.pool ≡ pool }
    {
        board.clear();
        Session {
            plan,
            board,
            pool,
            number,
            clock: 0,
            mode: Kind::Normal,
            rows: [NEW_ROW; 32],
            turn: None,
        }
    }

    // Ends the session and hands back its board and pool as they are. No job was late, and no block shared, lost or wanting.
    pub fn close(self) -> (B, P)
        ensures parts { result ≡ (self.entry.board, self.entry.pool) }
        ensures law { SoundSoFar B.Board.rows P.Pool.free self.entry }
    {
        // A session is not dropped, so it is taken apart whole.
        let Session {
            plan: _plan,
            board,
            pool,
            number: _number,
            clock: _clock,
            mode: _mode,
            rows: _rows,
            turn: _turn,
        } = self;
        (board, pool)
    }

    // How many ticks have gone by.
    pub fn clock(&self) -> u32
        ensures { result ≡ self.now.clock }
    {
        self.clock
    }

    // Abnormal from an abnormal arrival until no job is unended.
    pub fn mode(&self) -> Kind
        ensures { result ≡ self.now.mode }
    {
        self.mode
    }

    // The unended job of a row, or none; a row that is not in the plan has none.
    pub fn job(&self, row: u32) -> Option<Job>
        ensures answer { result ≡ job_of self.now row }
        ensures in_plan { length (rows_in self.now) ≤ row → result ≡ None }
    {
        self.rows.get(row as usize)?.job
    }
}
