// How many blocks a pool has.
ghost use Rattle.std.specs.Prelude.{◌≡◌};
ghost use Rattle.pool.specs.Pools.{blocks_for};

// No pool has more blocks.
pub const MOST: u32 = 64;

// `n` brought into 1 to 64.
pub fn blocks_for(n: u32) -> u32
    ensures { result ≡ blocks_for n }
{
    n.clamp(1, MOST)
}
