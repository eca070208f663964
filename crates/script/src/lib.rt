// Scripts of a session: what their words say.
#![tactic(auto)]

mod commands;
mod hex;
mod words;

pub use commands::{BoardName, Opening, PoolName, Wrong};
pub use hex::{HexFault, decode};
pub use words::{Keyword, block_count, read_keyword, whole};
