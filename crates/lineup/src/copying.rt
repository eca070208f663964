// Copying a line-up record by record.
ghost use Rattle.std.specs.Prelude.{◌≡◌, ◌≤◌, true, List, length, is_ok, Ok};
ghost use Rattle.format.specs.Decoding.{decode};
ghost use Rattle.format.specs.Encoding.{encode};
ghost use Rattle.format.specs.Records.{Item, item_of};
ghost use Rattle.format.specs.Standing.{OffsetKept};
ghost use Rattle.format.specs.Writing.{RowKept, write_at};
ghost use Rattle.writer.specs.Writers.{place_of, buffer_of, Wrote};
ghost use Rattle.lineup.specs.Copying.{copy_answer, copied_over, output_after};

use format::{Record, WriteFault};
use reader::{Reader, read_rows};
use row::{Fault, Refusal, Row};
use writer::Writer;

// Reads a line-up and writes its records to the output, which then begins with the same bytes.
// Answers their length. A fault leaves the output as it was.
pub fn copy(input: &[u8], output: &mut [u8]) -> Result<usize, Fault>
    ensures answer { result ≡ copy_answer (decode input.now) (length input.now) (length output.old) }
    ensures output { output.new ≡ output_after input.now output.old result }
    ensures encodes { (items : List Item) → decode input.now ≡ Ok items → encode items ≡ input.now }
{
    read_rows(input)?;
    let space = output.len();
    if space < input.len() {
        return Err(WriteFault {
            refusal: Refusal::NoRoom,
            place: space,
        }
        .into());
    }
    copy_records(input, output)?;
    Ok(input.len())
}

// Copies the records of a line-up that reads and fits.
fn copy_records(input: &[u8], output: &mut [u8]) -> Result<(), Fault>
    requires reads { is_ok (decode input.now) ≡ true }
    requires fits { length input.now ≤ length output.old }
    ensures answer { result ≡ Ok tt }
    ensures output { output.new ≡ copied_over input.now output.old }
{
    let mut reader = Reader::new(input);
    let mut writer = Writer::new(output);
    while let Some(seen) = reader.next()? {
        put_record(&mut writer, &seen)?;
    }
    Ok(())
}

// Puts a record that was read, and that the writer takes, behind what is written.
fn put_record(writer: &mut Writer<'_>, seen: &Record<'_>) -> Result<(), Fault>
    requires kept { (RowKept (item_of seen.now)) × (OffsetKept (place_of writer.old) (item_of seen.now)) }
    requires taken { Ok tt ≡ write_at (length (buffer_of writer.old)) (place_of writer.old) (item_of seen.now) }
    ensures answer { result ≡ Ok tt }
    ensures wrote { Wrote writer.old writer.new (item_of seen.now) (Ok tt) }
{
    match seen {
        Record::Row(numbers) => {
            let row = Row::try_from(*numbers)?;
            writer.put(&row)?;
        }
        Record::Label { bytes, .. } => {
            writer.label(bytes)?;
        }
        Record::End => {
            writer.finish()?;
        }
    }
    Ok(())
}
