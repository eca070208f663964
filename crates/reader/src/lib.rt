// Reads line-ups: record by record, or the rows of a whole one.
#![tactic(auto)]

mod parts;
mod reader;
mod reading;
mod row_list;
mod whole;

pub use reader::Reader;
pub use row_list::RowList;
pub use whole::read_rows;
