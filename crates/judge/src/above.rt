// The rows above a row.
ghost use Rattle.std.specs.Prelude.{◌≤◌, length};

use row::Row;

// From row 0 on. A line-up has few enough rows that no sum of their demands overflows.
#[derive(Clone, Copy)]
pub(crate) struct Above<'a> {
    pub rows: &'a [Row],
    ghost few: { length rows.now ≤ 32 },
}
