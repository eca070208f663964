// What a session keeps. Only this crate can touch it, so every session that exists keeps its limits.
ghost use Rattle.std.specs.Prelude.{◌≡◌, ℕ, ◌<◌, ◌≤◌, true, length, is_some, None, slice_index_or};
ghost use Rattle.judge.specs.Plan.{rows_of};
ghost use Rattle.session.specs.RowStates.{new_row};

use super::row_state::RowState;
use judge::Plan;
use law::TurnNumbers;
use row::Kind;

// The clock at which a session ends: arrive and begin are then refused, so that no sum with a period overflows.
pub(crate) const LAST_CLOCK: u32 = 4_000_000_000;

// A plan being run. What is kept of row r is in `rows[r]`.
// That the board holds the rows with an unended job is no ghost field: it would put the meaning of B and P into every definition about sessions.
pub struct Session<'p, B, P> {
    pub(crate) plan: &'p Plan,
    pub(crate) board: B,
    pub(crate) pool: P,
    pub(crate) number: u32,
    pub(crate) clock: u32,
    pub(crate) mode: Kind,
    pub(crate) rows: [RowState; 32],
    pub(crate) turn: Option<TurnNumbers>,
    ghost places: { length rows ≡ 32 },
    ghost in_plan: { ((r : ℕ) → length (rows_of plan.now) ≤ r → (slice_index_or rows r new_row).job ≡ None) },
    ghost in_time: { clock ≤ 4000000000 },
    ghost turn_in_time: { (is_some turn ≡ true → clock < 4000000000) },
}
