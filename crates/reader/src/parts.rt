// Each kind of record, read at the front of what is left of the input.
ghost use Rattle.std.specs.Prelude.{◌≡◌, ◌+◌, ◌-◌, ◌*◌, ◌≤◌, ◌==◌, cond, nat_lt, length};
ghost use Rattle.fields.specs.Fields.{field};
ghost use Rattle.format.specs.Reading.{row_of, times_in, helper_in, track_in, label_in, end_in};
ghost use Rattle.format.specs.Records.{bytes_read};

use fields::read_field;
use format::good_label;
use row::{Refusal, Row, RowNumbers};

// A line-up has at most this many rows.
const MOST_ROWS: usize = 32;

// Numbers that make a row, and a place for it in the line-up.
#[inline]
fn admit_row(numbers: RowNumbers, rows: usize) -> Result<RowNumbers, Refusal>
    ensures { result ≡ row_of numbers rows }
{
    if Row::try_from(numbers).is_err() {
        return Err(Refusal::OutsideLimits);
    }
    if rows >= MOST_ROWS {
        return Err(Refusal::TooManyRows);
    }
    Ok(numbers)
}

// Period, deadline and short budget, which stand at the same bits in both kinds of row.
#[inline]
fn times(rest: &[u8]) -> (u32, u32, u32)
    ensures { result ≡ times_in rest.now }
{
    (
        read_field(rest, 3, 18),
        read_field(rest, 21, 18),
        read_field(rest, 39, 18),
    )
}

// A row of so many bytes is there, and its bits from `filling` on are zero.
#[inline]
fn check_row(rest: &[u8], size: usize, filling: u32) -> Result<(), Refusal>
    requires { (filling ≤ 8 * size) × (8 * size ≤ filling + 32) × (size ≤ 10) }
    ensures { result ≡ cond (nat_lt (length rest.now) size) (Err Refusal.InputEnds)
        (cond (field rest.now filling (8 * size - filling) == 0) (Ok tt) (Err Refusal.FillingNotZero)) }
{
    if rest.len() < size {
        return Err(Refusal::InputEnds);
    }
    if read_field(rest, filling, 8 * size as u32 - filling) != 0 {
        return Err(Refusal::FillingNotZero);
    }
    Ok(())
}

pub(crate) fn helper_in(rest: &[u8], rows: usize) -> Result<RowNumbers, Refusal>
    ensures { result ≡ helper_in rest.now rows }
{
    check_row(rest, 8, 57)?;
    let (period, deadline, short) = times(rest);
    let numbers = RowNumbers::Helper {
        period,
        deadline,
        short,
    };
    admit_row(numbers, rows)
}

pub(crate) fn track_in(rest: &[u8], rows: usize) -> Result<RowNumbers, Refusal>
    ensures { result ≡ track_in rest.now rows }
{
    check_row(rest, 10, 75)?;
    let (period, deadline, short) = times(rest);
    let long = read_field(rest, 57, 18);
    let numbers = RowNumbers::Track {
        period,
        deadline,
        short,
        long,
    };
    admit_row(numbers, rows)
}

pub(crate) fn label_in(rest: &[u8], after_row: bool) -> Result<&[u8], Refusal>
    ensures { bytes_read result ≡ label_in rest.now after_row }
{
    let size = read_field(rest, 3, 5) as usize;
    if rest.len() < 1 + size {
        return Err(Refusal::InputEnds);
    }
    let bytes = &rest[1..1 + size];
    if !good_label(bytes, after_row) {
        return Err(Refusal::BadLabel);
    }
    Ok(bytes)
}

pub(crate) fn end_in(rest: &[u8], rows: usize) -> Result<(), Refusal>
    ensures { result ≡ end_in rest.now rows }
{
    if read_field(rest, 3, 5) as usize + 1 != rows {
        return Err(Refusal::WrongCount);
    }
    if rest.len() > 1 {
        return Err(Refusal::AfterEnd);
    }
    Ok(())
}
