// Reading a whole line-up.
ghost use Rattle.std.specs.Prelude.{◌≡◌, ◌+◌, ◌<◌, ◌≤◌, [], ◌∷◌, ◌++◌};
ghost use Rattle.format.specs.Decoding.{decode, rows_among, map_ok};
ghost use Rattle.format.specs.Reading.{rows_in};
ghost use Rattle.format.specs.Records.{item_of};
ghost use Rattle.reader.specs.RowLists.{rows_of, rows_read};

use super::reader::Reader;
use super::row_list::RowList;
use format::{ReadFault, Record};
use row::RowNumbers;

impl RowList {
    // A list without rows.
    pub fn new() -> RowList
        ensures rows { rows_of result ≡ [] }
        ensures count { result.count ≡ 0 }
    {
        RowList {
            numbers: [RowNumbers::default(); 32],
            count: 0,
        }
    }

    // The rows in the order in which they were read.
    pub fn as_slice(&self) -> &[RowNumbers]
        ensures { result.now ≡ rows_of self.now }
    {
        &self.numbers[0..self.count]
    }

    fn push(&mut self, numbers: RowNumbers)
        requires { self.old.count < 32 }
        ensures rows { rows_of self.new ≡ rows_of self.old ++ (numbers ∷ []) }
        ensures count { self.new.count ≡ self.old.count + 1 }
    {
        let at = self.count;
        self.numbers[at] = numbers;
        self.count = at + 1;
    }

    // Keeps the record if it is a row.
    fn note(&mut self, seen: &Record<'_>)
        requires { self.old.count + rows_in (item_of seen.now) ≤ 32 }
        ensures rows { rows_of self.new ≡ rows_of self.old ++ rows_among (item_of seen.now ∷ []) }
        ensures count { self.new.count ≡ self.old.count + rows_in (item_of seen.now) }
    {
        if let Record::Row(numbers) = seen {
            self.push(*numbers);
        }
    }
}

// The rows of a whole line-up, or the reader's first fault.
pub fn read_rows(input: &[u8]) -> Result<RowList, ReadFault>
    ensures { rows_read result ≡ map_ok rows_among (decode input.now) }
{
    let mut reader = Reader::new(input);
    let mut rows = RowList::new();
    while let Some(seen) = reader.next()? {
        rows.note(&seen);
    }
    Ok(rows)
}
