// Rows of a line-up, their limits, and the faults by which every layer refuses.
#![tactic(auto)]

mod faults;
mod kinds;
mod making;
mod rows;

pub use faults::{Fault, Layer, Refusal};
pub use rows::{Helper, Kind, Row, RowNumbers, Track};
