// Line-ups as bytes: the reader, the writer, and copying by both.
#![tactic(auto)]

mod copying;

pub use copying::copy;
pub use format::{ReadFault, Record, WriteFault};
pub use reader::{Reader, RowList, read_rows};
pub use writer::Writer;
