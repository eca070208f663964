// Writes line-ups to a buffer, record by record.
#![tactic(auto)]

mod pack;
mod writer;
mod writing;

pub use writer::Writer;
