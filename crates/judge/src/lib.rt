// The judge: whether each job of a line-up makes its deadline, by response-time analysis.
#![tactic(auto)]

mod above;
mod bounds;
mod demand;
mod faults;
mod finish;
mod greatest;
mod judging;
mod passing;
mod plan;
mod planned;
mod share;
mod tracks;

pub use bounds::{Bounds, JudgeFault, LateBounds};
pub use judging::judge;
pub use plan::Plan;
