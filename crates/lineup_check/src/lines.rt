// The lines of a listing.
ghost use Rattle.std.specs.Prelude.{◌≡◌, ◌+◌, ◌≤◌, ◌++◌};
ghost use Rattle.arrayvec.specs.ArrayString.{array_string_len};
ghost use Rattle.judge.specs.Plan.{rows_of, bounds_of};
ghost use Rattle.lineup_check.specs.Lines.{spaced, refused_line, letter_of, late_fields, line_at, row_line, bound_lines};

use arrayvec::ArrayString;
use itoa::{Buffer, Integer};
use judge::{Bounds, LateBounds, Plan};
use row::{Fault, Row};

// The longest listing fits: 32 lines of at most 46 bytes. It lies in fixed memory, since a recorder must not fail for want of it.
// Each piece that is pushed asks for its room, since memory is fixed and the call cannot fail; what `write!` writes might not fit.
pub(crate) type Text = ArrayString<2048>;

// A number behind a single space.
fn push_field<I: Integer>(text: &mut Text, n: I)
    requires { array_string_len text.old + I.MAX_STR_LEN + 1 ≤ 2048 }
    ensures bytes { text.new.bytes ≡ text.old.bytes ++ spaced (I.text n) }
    ensures len { array_string_len text.new ≤ array_string_len text.old + I.MAX_STR_LEN + 1 }
{
    let mut digits = Buffer::new();
    text.push_str(" ");
    text.push_str(digits.format(n));
}

pub(crate) fn refused_line(fault: Fault) -> Text
    ensures { result.bytes ≡ refused_line fault }
{
    let mut text = Text::new();
    text.push_str("refused");
    push_field(&mut text, fault.refusal.number());
    text.push_str(" ");
    text.push_str(fault.layer.word());
    push_field(&mut text, fault.place);
    text.push_str("\n");
    text
}

// Text with the blank before it, where the timeline of a rehearsal has a single character.
fn letter(row: &Row) -> &'static str
    ensures { result.now ≡ spaced (letter_of row.now) }
{
    match *row {
        Row::Track(_) => " T",
        Row::Helper(_) => " H",
    }
}

fn push_late(text: &mut Text, late: Option<LateBounds>)
    requires { array_string_len text.old + 22 ≤ 2048 }
    ensures bytes { text.new.bytes ≡ text.old.bytes ++ late_fields late }
    ensures len { array_string_len text.new ≤ array_string_len text.old + 22 }
{
    if let Some(bounds) = late {
        push_field(text, bounds.mixed);
        push_field(text, bounds.long);
    }
}

fn push_row(text: &mut Text, place: u32, row: &Row, bounds: &Bounds)
    requires { array_string_len text.old + 46 ≤ 2048 }
    ensures bytes { text.new.bytes ≡ text.old.bytes ++ row_line place row.now bounds.now }
    ensures len { array_string_len text.new ≤ array_string_len text.old + 46 }
{
    let mut digits = Buffer::new();
    text.push_str(digits.format(place));
    text.push_str(letter(row));
    push_field(text, bounds.normal);
    push_late(text, bounds.late);
    text.push_str("\n");
}

// The line of the row at a place of the plan, where there is one.
fn push_place(text: &mut Text, place: u32, row: Option<Row>, bounds: Option<Bounds>)
    requires { array_string_len text.old + 46 ≤ 2048 }
    ensures bytes { text.new.bytes ≡ text.old.bytes ++ line_at place row bounds }
    ensures len { array_string_len text.new ≤ array_string_len text.old + 46 }
{
    if let (Some(row), Some(bounds)) = (row, bounds) {
        push_row(text, place, &row, &bounds);
    }
}

pub(crate) fn bound_lines(plan: &Plan) -> Text
    ensures { result.bytes ≡ bound_lines (rows_of plan.now) (bounds_of plan.now) }
{
    let mut text = Text::new();
    // by place, since a line has its row's number, and a plan gives rows and bounds by place alone
    for place in 0..plan.len() {
        push_place(&mut text, place as u32, plan.row(place), plan.bounds(place));
    }
    text
}
