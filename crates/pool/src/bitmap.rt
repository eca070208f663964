// A pool in one word: the set of its free blocks.
ghost use Rattle.std.specs.Prelude.{◌≡◌, ◌≤◌, length};
ghost use Rattle.sets.specs.Sets.{full};
ghost use Rattle.pool.specs.Pools.{blocks_for};

use super::Pool;
use super::number::blocks_for;
use sets::BitSet;

#[derive(Drop)]
pub struct BitmapPool {
    free: BitSet,
    ghost number: { (1 ≤ length free) × (length free ≤ 64) },
}

impl BitmapPool {
    // A pool of `n` blocks, brought into 1 to 64, all free.
    pub fn new(n: u32) -> BitmapPool
        ensures { result.free ≡ full (blocks_for n) }
    {
        BitmapPool {
            free: BitSet::full(blocks_for(n)),
        }
    }
}

impl Pool for BitmapPool {
    ghost free = { λ pool. pool.free };

    ghost range = { λ pool. pool.number };

    fn take(&mut self) -> Option<u32> {
        self.free.pop_first()
    }

    fn give(&mut self, block: u32) -> bool {
        self.free.insert(block)
    }

    fn blocks(&self) -> u32 {
        self.free.range()
    }

    fn free_count(&self) -> u32 {
        self.free.len()
    }

    fn is_free(&self, block: u32) -> bool {
        self.free.contains(block)
    }
}
