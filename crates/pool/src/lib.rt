// Pools: which blocks of a fixed number are free.
#![tactic(auto)]

ghost use Rattle.std.specs.Prelude.{◌≡◌, ◌≤◌, Bool, List, length};
ghost use Rattle.sets.specs.Sets.{member, joins, joined, without, size, IsMember};

mod bitmap;
mod free_list;
mod number;

pub use bitmap::BitmapPool;
pub use free_list::FreeListPool;

// A pool is a fixed number of blocks, 1 to 64, and the set of those that are free. What a call does not name stays as it was.
pub trait Pool {
    // of each block, whether it is free
    ghost free: { Self → List Bool };

    // Gives a free block, which is then free no more, or none if no block is free. Which free block is left open.
    fn take(&mut self) -> Option<u32>
        ensures answer { IsMember (free self.old) result }
        ensures after { free self.new ≡ without (free self.old) result };

    // Makes `block` free and says yes, if there is such a block and it is not free; otherwise says no.
    fn give(&mut self, block: u32) -> bool
        ensures answer { result ≡ joins (free self.old) block }
        ensures after { free self.new ≡ joined (free self.old) block };

    // How many blocks there are.
    fn blocks(&self) -> u32
        ensures { result ≡ length (free self.now) };

    // How many blocks are free.
    fn free_count(&self) -> u32
        ensures { result ≡ size (free self.now) };

    // Whether there is such a block and it is free.
    fn is_free(&self, block: u32) -> bool
        ensures { result ≡ member (free self.now) block };

    ghost range: { (pool : Self) → (1 ≤ length (free pool)) × (length (free pool) ≤ 64) };
}
