// The format of a line-up: its records, and the definitions of decoding and encoding with both round trips.
#![tactic(auto)]

mod faults;
mod labels;
mod places;
mod records;
mod sizes;

pub use labels::good_label;
pub use places::Place;
pub use records::{ReadFault, Record, WriteFault};
