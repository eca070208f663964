// What a session's answers come to, tick by tick and job by job.
#![tactic(auto)]

mod marks;
mod trace;
mod tracing;

pub use marks::Mark;
pub use trace::{End, JobLine, Tick, Trace};
