// Writing one record behind the other.
ghost use Rattle.std.specs.Prelude.{◌≡◌, ◌≤◌, List, [], IfOk};
ghost use Rattle.format.specs.Reading.{start, behind, wrapped};
ghost use Rattle.format.specs.Records.{Item, item_of, end};
ghost use Rattle.format.specs.Writing.{RowKept, may_stand, misplaced, write_at, label_item};
ghost use Rattle.writer.specs.Holding.{Holds, HoldsMore, ReadsBack};
ghost use Rattle.writer.specs.Writers.{place_of, buffer_of, row_item, Wrote, Finished};

use super::pack::emit;
use super::writer::Writer;
use format::{Place, Record, WriteFault, good_label};
use row::{Refusal, Row, RowNumbers};

impl<'a> Writer<'a> {
    // A writer at the front of the buffer.
    pub fn new(buffer: &'a mut [u8]) -> Writer<'a>
        ensures place { place_of result ≡ start }
        ensures buffer { buffer_of result ≡ buffer.old }
        ensures holds { Holds result [] }
        ensures same { result.buffer.ghost_name ≡ buffer.entry.ghost_name }
    {
        Writer {
            buffer,
            place: Place::start(),
        }
    }

    // Puts a row behind what is written. Each call says what the writer then holds: an invariant could say only that it holds some list.
    pub fn put(&mut self, row: &Row) -> Result<(), WriteFault>
        ensures wrote { Wrote self.old self.new (row_item row.now) result }
        ensures holds { (items : List Item) → Holds self.old items → HoldsMore result self.new items (row_item row.now) }
    {
        self.write(&Record::Row((*row).into()))
    }

    // Puts a label behind the row that it names.
    pub fn label(&mut self, bytes: &[u8]) -> Result<(), WriteFault>
        ensures wrote { Wrote self.old self.new (label_item (place_of self.old) bytes.now) result }
        ensures holds { (items : List Item) → Holds self.old items
            → HoldsMore result self.new items (label_item (place_of self.old) bytes.now) }
    {
        let offset = self.place.at + 1;
        self.write(&Record::Label { offset, bytes })
    }

    // Puts the end record and answers the length of the line-up.
    pub fn finish(&mut self) -> Result<usize, WriteFault>
        ensures wrote { Finished self.old self.new result }
        ensures holds { (items : List Item) → Holds self.old items → HoldsMore result self.new items end }
        ensures back { (items : List Item) → Holds self.old items → ReadsBack result self.new items }
    {
        self.write(&Record::End)?;
        Ok(self.place.at)
    }

    // Writes the record behind the last one, or refuses and changes nothing.
    fn write(&mut self, piece: &Record<'_>) -> Result<(), WriteFault>
        requires { RowKept (item_of piece.now) }
        ensures { Wrote self.old self.new (item_of piece.now) result }
    {
        let place = self.place;
        admit(place, piece, self.buffer.len())?;
        emit(self.buffer, place.at, place.rows, piece);
        self.place = place.behind(piece);
        Ok(())
    }
}

// Whether the record may be written at the place of a buffer of so many bytes.
fn admit(place: Place, piece: &Record<'_>, space: usize) -> Result<(), WriteFault>
    requires { place.at ≤ space }
    ensures answer { result ≡ write_at space place (item_of piece.now) }
    ensures next { IfOk result (λ _. wrapped (behind place (item_of piece.now)) ≡ behind place (item_of piece.now)) }
{
    let (refusal, place) = if place.ended {
        (Refusal::AfterEnd, place.at)
    } else if !may_stand(&place, piece) {
        (misplaced_as(piece), place.at)
    } else if space - place.at < piece.size() {
        (Refusal::NoRoom, space)
    } else {
        return Ok(());
    };
    Err(WriteFault { refusal, place })
}

// Whether the record may stand at the place.
fn may_stand(place: &Place, piece: &Record<'_>) -> bool
    ensures { result ≡ may_stand place.now (item_of piece.now) }
{
    match piece {
        Record::Row(_) => place.rows < 32,
        Record::Label { bytes, .. } => bytes.len() <= 31 && good_label(bytes, place.after_row),
        Record::End => 0 < place.rows,
    }
}

// The refusal of a record that may not stand there.
fn misplaced_as(piece: &Record<'_>) -> Refusal
    ensures { result ≡ misplaced (item_of piece.now) }
{
    match piece {
        Record::Row(_) => Refusal::TooManyRows,
        Record::Label { .. } => Refusal::BadLabel,
        Record::End => Refusal::WrongCount,
    }
}
