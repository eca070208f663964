// A board in one word: the set of its rows.
ghost use Rattle.std.specs.Prelude.{◌≡◌, length};
ghost use Rattle.sets.specs.Sets.{empty};

use super::{Board, ROWS};
use sets::BitSet;

#[derive(Drop)]
pub struct WordBoard {
    rows: BitSet,
    ghost many: { length rows ≡ 32 },
}

impl WordBoard {
    // An empty board.
    pub fn new() -> WordBoard
        ensures { result.rows ≡ empty 32 }
    {
        WordBoard {
            rows: BitSet::empty(ROWS),
        }
    }
}

impl Board for WordBoard {
    ghost rows = { λ board. board.rows };

    ghost range = { λ board. board.many };

    fn clear(&mut self) {
        *self = WordBoard::new();
    }

    fn add(&mut self, row: u32) -> bool {
        self.rows.insert(row)
    }

    fn remove(&mut self, row: u32) -> bool {
        self.rows.remove(row)
    }

    fn first(&self) -> Option<u32> {
        self.rows.first()
    }
}
