// A set of small numbers in one word.
ghost use Rattle.std.specs.Prelude.{◌≡◌, length, min};
ghost use Rattle.sets.specs.Sets.{empty, full, member, joins, joined, left, without, smallest, size};

use std::marker::Model;

// No set has a larger range.
const MOST: u32 = 64;

// A set of the numbers below `range`: k is a member where the binary digit k of the word is 1.
// No digit from `range` on is 1, so the digits that are 1 count the members.
#[derive(Drop)]
pub struct BitSet {
    range: u32,
    word: u64,
}

impl Model for BitSet {
    ghost use Rattle.std.specs.Prelude.{◌^◌, ◌<◌, ◌≤◌, Bool, List};
    ghost use Rattle.sets.specs.Digits.{digits};

    ghost Value = { List Bool };

    ghost view = { λ set. digits set.range set.word };

    ghost invariant = { λ set. record { narrow : set.range ≤ 64; within : set.word < 2 ^ set.range } };
}

impl BitSet {
    // No number below `range`, which is brought down to 64.
    pub fn empty(range: u32) -> BitSet
        ensures { result ≡ empty (min range 64) }
    {
        BitSet {
            range: range.min(MOST),
            word: 0,
        }
    }

    // Every number below `range`, which is brought down to 64.
    pub fn full(range: u32) -> BitSet
        ensures { result ≡ full (min range 64) }
    {
        let range = range.min(MOST);
        let word = if range > 0 {
            u64::MAX >> (MOST - range)
        } else {
            0
        };
        BitSet { range, word }
    }

    // How many numbers the range has.
    pub fn range(&self) -> u32
        ensures { result ≡ length self.now }
    {
        self.range
    }

    // How many members there are.
    pub fn len(&self) -> u32
        ensures { result ≡ size self.now }
    {
        self.word.count_ones()
    }

    // Whether `k` is a member.
    pub fn contains(&self, k: u32) -> bool
        ensures { result ≡ member self.now k }
    {
        k < self.range && self.word >> k & 1 == 1
    }

    // Takes `k` in and says yes, if it is in the range and absent; otherwise says no.
    pub fn insert(&mut self, k: u32) -> bool
        ensures answer { result ≡ joins self.old k }
        ensures after { self.new ≡ joined self.old k }
    {
        if k >= self.range || self.contains(k) {
            return false;
        }
        self.word |= 1 << k;
        true
    }

    // Takes `k` out and says yes, if it was a member; otherwise says no.
    pub fn remove(&mut self, k: u32) -> bool
        ensures answer { result ≡ member self.old k }
        ensures after { self.new ≡ left self.old k }
    {
        if !self.contains(k) {
            return false;
        }
        self.word ^= 1 << k;
        true
    }

    // The smallest member, or none if the set is empty.
    pub fn first(&self) -> Option<u32>
        ensures { result ≡ smallest self.now }
    {
        let k = self.word.trailing_zeros();
        (k < self.range).then_some(k)
    }

    // Takes out the smallest member.
    pub fn pop_first(&mut self) -> Option<u32>
        ensures answer { result ≡ smallest self.old }
        ensures after { self.new ≡ without self.old result }
    {
        let first = self.first()?;
        self.word ^= 1 << first;
        Some(first)
    }
}
