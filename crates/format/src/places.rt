// Where a reader or a writer stands.
ghost use Rattle.std.specs.Prelude.{◌≡◌};
ghost use Rattle.format.specs.Reading.{start, behind, wrapped};
ghost use Rattle.format.specs.Records.{item_of};

use super::records::Record;

// A place between two records. Its flags are asked one at a time, and the definitions of decoding name both.
#[derive(Clone, Copy, Debug, PartialEq, Eq)]
pub struct Place {
    // the offset of the next record
    pub at: usize,
    // how many rows came before it
    pub rows: usize,
    // whether a row came directly before it, so that a label may follow
    pub after_row: bool,
    // whether the end record came before it
    pub ended: bool,
}

impl Place {
    // The front of a line-up.
    pub fn start() -> Place
        ensures { result ≡ start }
    {
        Place {
            at: 0,
            rows: 0,
            after_row: false,
            ended: false,
        }
    }

    // The place behind a record that begins here. Sums wrap at 2 ^ 64, which no line-up reaches.
    pub fn behind(&self, seen: &Record<'_>) -> Place
        ensures { result ≡ wrapped (behind self.now (item_of seen.now)) }
    {
        Place {
            at: self.at.wrapping_add(seen.size()),
            rows: self.rows.wrapping_add(seen.rows()),
            after_row: matches!(seen, Record::Row(_)),
            ended: matches!(seen, Record::End),
        }
    }
}
