// Boards: which rows have an unended job, and which of them goes first.
#![tactic(auto)]

ghost use Rattle.std.specs.Prelude.{◌≡◌, Bool, List, length};
ghost use Rattle.sets.specs.Sets.{empty, member, joins, joined, left, smallest, IsSmallest};

mod chain;
mod word;

pub use chain::ChainBoard;
pub use word::WordBoard;

// How many row numbers there are: 0 to 31.
pub const ROWS: u32 = 32;

// A board is a set of row numbers from 0 to 31. What a call does not name stays as it was.
pub trait Board {
    // the rows on the board
    ghost rows: { Self → List Bool };

    // Takes every row off.
    fn clear(&mut self)
        ensures { rows self.new ≡ empty 32 };

    // Puts `row` on and says yes, if it is at most 31 and absent; otherwise says no.
    fn add(&mut self, row: u32) -> bool
        ensures answer { result ≡ joins (rows self.old) row }
        ensures after { rows self.new ≡ joined (rows self.old) row };

    // Takes `row` off and says yes, if it was present; otherwise says no.
    fn remove(&mut self, row: u32) -> bool
        ensures answer { result ≡ member (rows self.old) row }
        ensures after { rows self.new ≡ left (rows self.old) row };

    // The smallest row on the board, or none if it is empty.
    fn first(&self) -> Option<u32>
        ensures answer { result ≡ smallest (rows self.now) }
        ensures least { IsSmallest (rows self.now) result };

    ghost range: { (board : Self) → length (rows board) ≡ 32 };
}
