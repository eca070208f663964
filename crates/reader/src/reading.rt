// Reading one record after another.
ghost use Rattle.std.specs.Prelude.{◌≡◌, ◌+◌, ◌≤◌, length, IfOk};
ghost use Rattle.format.specs.Reading.{start, record_in, read_at, place_after, size_of, rows_in};
ghost use Rattle.format.specs.Records.{item_of};
ghost use Rattle.reader.specs.Readers.{place_of, input_of, item_read, answer_of};

use super::parts::{end_in, helper_in, label_in, track_in};
use super::reader::Reader;
use fields::read_field;
use format::{Place, ReadFault, Record};
use row::Refusal;

// The record at the front of what is left of the input, or why there is none.
fn record_in<'a>(rest: &'a [u8], place: &Place) -> Result<Record<'a>, Refusal>
    requires { place.now.at + length rest.now ≤ 18446744073709551615 }
    ensures answer { item_read result ≡ record_in rest.now place.now.at place.now.rows place.now.after_row }
    ensures size { IfOk result (λ x. size_of (item_of x) ≤ length rest.now) }
    ensures few { place.now.rows ≤ 32 → IfOk result (λ x. place.now.rows + rows_in (item_of x) ≤ 32) }
{
    if rest.is_empty() {
        return Err(Refusal::InputEnds);
    }
    match read_field(rest, 0, 3) {
        0 => Ok(Record::Row(helper_in(rest, place.rows)?)),
        1 => Ok(Record::Row(track_in(rest, place.rows)?)),
        2 => Ok(Record::Label {
            offset: place.at + 1,
            bytes: label_in(rest, place.after_row)?,
        }),
        3 => {
            end_in(rest, place.rows)?;
            Ok(Record::End)
        }
        _ => Err(Refusal::UnknownKind),
    }
}

impl<'a> Reader<'a> {
    // A reader at the front of the input.
    pub fn new(input: &'a [u8]) -> Reader<'a>
        ensures place { place_of result ≡ start }
        ensures input { input_of result ≡ input.now }
    {
        Reader {
            input,
            place: Place::start(),
        }
    }

    // The next record, or none behind the end record. A refused read leaves the reader in its place.
    // No Iterator: it would give the same refusal for ever, and every loop over one has to end.
    pub fn next(&mut self) -> Result<Option<Record<'a>>, ReadFault>
        ensures answer { answer_of result ≡ read_at (input_of self.old) (place_of self.old) }
        ensures place { place_of self.new ≡ place_after (place_of self.old) (answer_of result) }
        ensures input { input_of self.new ≡ input_of self.old }
    {
        if self.place.ended {
            return Ok(None);
        }
        let at = self.place.at;
        match record_in(&self.input[at..], &self.place) {
            Err(refusal) => Err(ReadFault {
                refusal,
                offset: at,
            }),
            Ok(record) => {
                self.place = self.place.behind(&record);
                Ok(Some(record))
            }
        }
    }
}
