// Calls of a pool.
use std::fmt;

#[derive(Clone, Copy)]
pub enum PoolCall {
    Take,
    TakeAndReturn,
    Give(u32),
    Blocks,
    FreeCount,
    IsFree(u32),
}

pub const CALLS: [PoolCall; 15] = [
    PoolCall::Blocks,
    PoolCall::TakeAndReturn,
    PoolCall::FreeCount,
    PoolCall::Take,
    PoolCall::Take,
    PoolCall::FreeCount,
    PoolCall::Take,
    PoolCall::Take,
    PoolCall::TakeAndReturn,
    PoolCall::Give(1),
    PoolCall::Give(1),
    PoolCall::Give(3),
    PoolCall::IsFree(1),
    PoolCall::IsFree(0),
    PoolCall::FreeCount,
];

pub const SIZES: [PoolCall; 2] = [PoolCall::Blocks, PoolCall::FreeCount];

impl fmt::Display for PoolCall {
    fn fmt<W: fmt::Write>(&self, f: &mut fmt::Formatter<W>) -> fmt::Result {
        match *self {
            PoolCall::Take => write!(f, "take"),
            PoolCall::TakeAndReturn => write!(f, "take and return"),
            PoolCall::Give(block) => write!(f, "give {block}"),
            PoolCall::Blocks => write!(f, "blocks"),
            PoolCall::FreeCount => write!(f, "free count"),
            PoolCall::IsFree(block) => write!(f, "is free {block}"),
        }
    }
}
