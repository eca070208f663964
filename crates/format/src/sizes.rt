// How much of a line-up a record takes.
ghost use Rattle.std.specs.Prelude.{◌≡◌};
ghost use Rattle.format.specs.Reading.{size_of, rows_in};
ghost use Rattle.format.specs.Records.{item_of};

use super::records::Record;
use row::RowNumbers;

impl<'a> Record<'a> {
    // How many bytes the record takes.
    pub fn size(&self) -> usize
        ensures { result ≡ size_of (item_of self.now) }
    {
        match self {
            Record::Row(RowNumbers::Helper { .. }) => 8,
            Record::Row(RowNumbers::Track { .. }) => 10,
            Record::Label { bytes, .. } => 1 + bytes.len(),
            Record::End => 1,
        }
    }

    // How many rows the record counts for.
    pub fn rows(&self) -> usize
        ensures { result ≡ rows_in (item_of self.now) }
    {
        match self {
            Record::Row(_) => 1,
            Record::Label { .. } => 0,
            Record::End => 0,
        }
    }
}
