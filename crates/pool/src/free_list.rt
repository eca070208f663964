// A pool as a free list in a table: the first free block, and for each free block the one behind it.
ghost use Rattle.std.specs.Prelude.{◌≡◌, ◌<◌, ◌≤◌, true, false, length, slice_set};
ghost use Rattle.sets.specs.Sets.{empty, full, member, size};
ghost use Rattle.pool.specs.Pools.{blocks_for};
ghost use Rattle.pool.specs.Visits.{free_in, visits};
ghost use Rattle.sets.proofs.Chains.{length_chain_first};
ghost use Rattle.sets.proofs.Members.{sized};

use super::Pool;
use super::number::blocks_for;

// The link of a block that is not free.
const OFF: u32 = u32::MAX;

// The link of the last free block: no block has this number.
// Links are numbers and not options: two options in each other would take twice the memory, and say no more.
const END: u32 = 64;

// The list visits `count` free blocks, each once, and then ends; and `count` is how many there are. So it visits them all.
// The links stand in a table, since the core has no heap, and of one size, since the definitions of chains speak of one.
#[derive(Drop)]
pub struct FreeListPool {
    blocks: u32,
    // kept beside the links, so that the number of free blocks takes no walk
    count: u32,
    head: u32,
    links: [u32; 64],
    ghost number: { (1 ≤ blocks) × (blocks ≤ 64) },
    ghost many: { length links ≡ 64 },
    ghost counted: { count ≡ size (free_in blocks links) },
    ghost visited: { visits links count head (free_in blocks links) ≡ true },
}

impl FreeListPool {
    // A pool of `n` blocks, brought into 1 to 64, all free.
    pub fn new(n: u32) -> FreeListPool
        ensures { free_in result.blocks result.links ≡ full (blocks_for n) }
    {
        let mut pool = FreeListPool::all_taken(blocks_for(n));
        pool.link_all();
        pool
    }

    // A pool of which no block is free.
    fn all_taken(blocks: u32) -> FreeListPool
        requires { (1 ≤ blocks) × (blocks ≤ 64) }
        ensures same { result.blocks ≡ blocks }
        ensures none { free_in result.blocks result.links ≡ empty result.blocks }
    {
        FreeListPool {
            blocks,
            count: 0,
            head: END,
            links: [OFF; 64],
        }
    }

    // Makes every block free, where none is.
    fn link_all(&mut self)
        requires { free_in self.old.blocks self.old.links ≡ empty self.old.blocks }
        ensures { free_in self.new.blocks self.new.links ≡ full self.old.blocks }
    {
        for block in 0..self.blocks {
            self.link(block);
        }
    }

    // Puts `block`, which is not free, before the first free block.
    fn link(&mut self, block: u32)
        requires within { block < self.old.blocks }
        requires taken { member (free_in self.old.blocks self.old.links) block ≡ false }
        ensures same { self.new.blocks ≡ self.old.blocks }
        ensures after { free_in self.new.blocks self.new.links ≡ slice_set (free_in self.old.blocks self.old.links) block true }
    {
        self.links[block as usize] = self.head;
        self.head = block;
        self.count += 1;
    }
}

// A free list is a pool: the free blocks are those that it visits.
impl Pool for FreeListPool {
    ghost free = { λ pool. free_in pool.blocks pool.links };

    ghost range = { λ pool. sized _ _ (length_chain_first pool.links pool.blocks 64 pool.number.1 pool.many) pool.number };

    fn take(&mut self) -> Option<u32> {
        if self.head == END {
            return None;
        }
        let block = self.head;
        let behind = self.links[block as usize];
        self.links[block as usize] = OFF;
        self.head = behind;
        self.count -= 1;
        Some(block)
    }

    fn give(&mut self, block: u32) -> bool {
        if block >= self.blocks || self.is_free(block) {
            return false;
        }
        self.link(block);
        true
    }

    fn blocks(&self) -> u32 {
        self.blocks
    }

    fn free_count(&self) -> u32 {
        self.count
    }

    fn is_free(&self, block: u32) -> bool {
        block < self.blocks && self.links[block as usize] != OFF
    }
}
