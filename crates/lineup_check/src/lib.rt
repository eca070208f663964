// The check call: reads a line-up, judges it and lists its bounds.
#![tactic(auto)]

mod checking;
mod lines;

pub use checking::{check_lineup, plan_lineup};
