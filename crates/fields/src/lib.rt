// Bit fields of up to 32 bits at any bit of a byte string.
#![tactic(auto)]

mod fields;

pub use fields::{pack_field, read_field};
