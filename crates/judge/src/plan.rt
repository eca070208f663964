// A plan: rows that were judged and passed, with their bounds.
ghost use Rattle.std.specs.Prelude.{◌≤◌, length};
ghost use Rattle.judge.specs.Accepted.{Accepted};

use super::bounds::Bounds;
use arrayvec::ArrayVec;
use row::Row;

// Every plan that exists is accepted; a new one has no rows. The rows lie apart from the bounds, since the rows above are judged as one slice.
#[derive(Drop)]
pub struct Plan {
    pub(crate) rows: ArrayVec<Row, 32>,
    pub(crate) bounds: ArrayVec<Bounds, 32>,
    ghost few: { length rows.items ≤ 32 },
    ghost accepted: { ∥ Accepted rows.items bounds.items ∥₁ },
}
