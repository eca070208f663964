// Sets of small numbers: the meaning that boards and pools share, what holds of it, and such a set in one word.
#![tactic(auto)]

ghost use Rattle.sets.specs.Laws.{Laws};

mod bit_set;

pub use bit_set::BitSet;

// What the words for sets come to: a number joins or leaves alone, and a no changes nothing.
pub fn laws_hold()
    ensures { Laws }
{}
