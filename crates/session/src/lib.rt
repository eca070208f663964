// A session: runs a judged plan tick by tick over any board and any pool.
#![tactic(auto)]

mod arriving;
mod beginning;
mod faults;
mod opening;
mod replaying;
mod reporting;
mod row_state;
mod session;
mod ticking;
mod turn;

pub use faults::SessionFault;
pub use replaying::{lists_replayed, replay};
pub use session::Session;
pub use turn::{NotReported, Turn};
