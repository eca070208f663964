// Whole records packed at the front of a buffer.
ghost use Rattle.std.specs.Prelude.{◌≡◌, ℕ, ◌+◌, ◌*◌, ◌≤◌, true, ◌++◌, length, drop};
ghost use Rattle.std.specs.List.{AllByRecursion};
ghost use Rattle.row.specs.Rows.{keeps};
ghost use Rattle.format.specs.Encoding.{number_of, bits_of, big_endian, FieldFits, row_bytes, label_bytes, end_bytes, record_bytes, Encodable, overwritten};
ghost use Rattle.format.specs.Reading.{size_of};
ghost use Rattle.format.specs.Records.{row, item_of};

use fields::pack_field;
use format::Record;
use row::RowNumbers;

// Packs fields of (width, value) behind one another. Together they take whole bytes.
fn pack_fields(bytes: &mut [u8], fields: &[(u32, u32)])
    ghost size: { ℕ }
    requires each { AllByRecursion FieldFits fields.now }
    requires whole { (bits_of fields.now ≡ 8 * size) × (size ≤ 10) }
    requires within { size ≤ length bytes.old }
    ensures { bytes.new ≡ big_endian size (number_of fields.now) ++ drop size bytes.old }
{
    let mut offset = 0;
    for &(width, value) in fields {
        // each field fits, so that none is left out
        pack_field(bytes, offset, width, value);
        offset += width;
    }
}

// Each packer asks for the room that its own record takes.
fn pack_row(bytes: &mut [u8], numbers: &RowNumbers)
    requires kept { keeps numbers.now ≡ true }
    requires within { size_of (row numbers.now) ≤ length bytes.old }
    ensures { bytes.new ≡ row_bytes numbers.now ++ drop (size_of (row numbers.now)) bytes.old }
{
    match *numbers {
        RowNumbers::Helper {
            period,
            deadline,
            short,
        } => {
            let fields = [(3, 0), (18, period), (18, deadline), (18, short), (7, 0)];
            pack_fields(bytes, &fields);
        }
        RowNumbers::Track {
            period,
            deadline,
            short,
            long,
        } => {
            let fields = [
                (3, 1),
                (18, period),
                (18, deadline),
                (18, short),
                (18, long),
                (5, 0),
            ];
            pack_fields(bytes, &fields);
        }
    }
}

fn pack_label(bytes: &mut [u8], label: &[u8])
    requires short { length label.now ≤ 31 }
    requires within { 1 + length label.now ≤ length bytes.old }
    ensures { bytes.new ≡ label_bytes label.now ++ drop (1 + length label.now) bytes.old }
{
    let size = label.len();
    bytes[0] = 0x40 + size as u8;
    bytes[1..1 + size].copy_from_slice(label);
}

fn pack_end(bytes: &mut [u8], rows: usize)
    requires some { 1 ≤ rows }
    requires within { 1 ≤ length bytes.old }
    ensures { bytes.new ≡ end_bytes rows ++ drop 1 bytes.old }
{
    bytes[0] = 0x60 + ((rows - 1) % 32) as u8;
}

// A record at the front of the bytes. An end record has the number of rows before it, less one.
fn pack_record(bytes: &mut [u8], rows: usize, piece: &Record<'_>)
    requires sound { Encodable rows (item_of piece.now) }
    requires within { size_of (item_of piece.now) ≤ length bytes.old }
    ensures { bytes.new ≡ record_bytes rows (item_of piece.now) ++ drop (size_of (item_of piece.now)) bytes.old }
{
    match piece {
        Record::Row(numbers) => pack_row(bytes, numbers),
        Record::Label { bytes: label, .. } => pack_label(bytes, label),
        Record::End => pack_end(bytes, rows),
    }
}

// Writes a record at a place of the whole buffer, and lends the packers the part from there on.
pub(crate) fn emit(buffer: &mut [u8], at: usize, rows: usize, piece: &Record<'_>)
    requires sound { Encodable rows (item_of piece.now) }
    requires within { at + size_of (item_of piece.now) ≤ length buffer.old }
    ensures { buffer.new ≡ overwritten buffer.old at (record_bytes rows (item_of piece.now)) }
{
    pack_record(&mut buffer[at..], rows, piece);
}
