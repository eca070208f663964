// The rows of a line-up, as plain numbers.
ghost use Rattle.std.specs.Prelude.{◌≡◌, ◌≤◌, length};

use row::RowNumbers;

// Up to 32 rows in the order of the line-up. An array and no `ArrayVec`, which is not Copy.
#[derive(Clone, Copy)]
pub struct RowList {
    pub(crate) numbers: [RowNumbers; 32],
    pub(crate) count: usize,
    ghost long: { length numbers ≡ 32 },
    ghost few: { count ≤ 32 },
}
