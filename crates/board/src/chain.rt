// A board as a chain of its rows in order: the first row, and for each row on the board the one behind it.
ghost use Rattle.std.specs.Prelude.{◌≡◌, ◌<◌, true, false, length, slice_set};
ghost use Rattle.sets.specs.Sets.{empty, member};
ghost use Rattle.sets.specs.Chains.{on_chain};
ghost use Rattle.board.specs.Order.{Begins, GoesOn, LastBelow};
ghost use Rattle.std.proofs.Common.{◌∙◌};
ghost use Rattle.sets.proofs.Chains.{length_chain};

use super::{Board, ROWS};

// The link of a row that is not on the board. That of the last row on it is `ROWS`, where the chain ends.
// Links are numbers and not options, so that the walk to a row's place is one comparison: the end is past every row.
const OFF: u32 = u32::MAX;

// The chain begins with the smallest row on the board, and behind each row on the board stands the next larger one.
// So it rises, visits exactly the rows on the board, and ends. The links stand in a table, since the core has no heap.
#[derive(Drop)]
pub struct ChainBoard {
    head: u32,
    links: [u32; 32],
    ghost many: { length links ≡ 32 },
    ghost begins: { Begins head links },
    ghost on: { GoesOn links },
}

impl ChainBoard {
    // An empty board.
    pub fn new() -> ChainBoard
        ensures { on_chain result.links ≡ empty 32 }
    {
        ChainBoard {
            head: ROWS,
            links: [OFF; 32],
        }
    }

    // Whether `row` is on the board.
    fn holds(&self, row: u32) -> bool
        ensures { result ≡ member (on_chain self.now.links) row }
    {
        row < ROWS && self.links[row as usize] != OFF
    }

    // The last row below `row`. The chain has such a row: its first. A walk along the links, of which no iterator is shorter.
    fn last_below(&self, row: u32) -> u32
        requires head_lt_row { self.now.head < row }
        requires row_bound { row < 32 }
        ensures { LastBelow self.now.links row result }
    {
        let mut place = self.head;
        while self.links[place as usize] < row {
            place = self.links[place as usize];
        }
        place
    }

    // Puts `row` before the first row.
    fn link_first(&mut self, row: u32)
        requires { row < self.old.head }
        ensures { on_chain self.new.links ≡ slice_set (on_chain self.old.links) row true }
    {
        self.links[row as usize] = self.head;
        self.head = row;
    }

    // Puts `row`, which is absent, behind `place`, the last row below it.
    fn link_after(&mut self, place: u32, row: u32)
        requires last { LastBelow self.old.links row place }
        requires absent { member (on_chain self.old.links) row ≡ false }
        requires within { row < 32 }
        ensures { on_chain self.new.links ≡ slice_set (on_chain self.old.links) row true }
    {
        let behind = self.links[place as usize];
        self.links[row as usize] = behind;
        self.links[place as usize] = row;
    }

    // Takes off the first row.
    fn unlink_first(&mut self)
        requires { self.old.head < 32 }
        ensures { on_chain self.new.links ≡ slice_set (on_chain self.old.links) self.old.head false }
    {
        let first = self.head;
        self.head = self.links[first as usize];
        self.links[first as usize] = OFF;
    }

    // Takes off `row`, which stands behind `place`.
    fn unlink_after(&mut self, place: u32, row: u32)
        requires last { LastBelow self.old.links row place }
        requires present { member (on_chain self.old.links) row ≡ true }
        ensures { on_chain self.new.links ≡ slice_set (on_chain self.old.links) row false }
    {
        let behind = self.links[row as usize];
        self.links[place as usize] = behind;
        self.links[row as usize] = OFF;
    }
}

// A chain is a board: the set of the rows that it links.
impl Board for ChainBoard {
    ghost rows = { λ board. on_chain board.links };

    ghost range = { λ board. length_chain board.links ∙ board.many };

    fn clear(&mut self) {
        *self = ChainBoard::new();
    }

    fn add(&mut self, row: u32) -> bool {
        if row >= ROWS || self.holds(row) {
            return false;
        }
        if row < self.head {
            self.link_first(row);
        } else {
            let place = self.last_below(row);
            self.link_after(place, row);
        }
        true
    }

    fn remove(&mut self, row: u32) -> bool {
        if !self.holds(row) {
            return false;
        }
        if row == self.head {
            self.unlink_first();
        } else {
            let place = self.last_below(row);
            self.unlink_after(place, row);
        }
        true
    }

    fn first(&self) -> Option<u32> {
        (self.head < ROWS).then_some(self.head)
    }
}
