// The records of a job book: their bytes and numbers, what a kind fixes, and from one record to the next; bytes copied into lent memory.
#![tactic(auto)]

mod copy;
mod fields;
mod reader;
mod walk;

pub use copy::copy_in;
pub use fields::{byte, group_of, number, offset_of, span_of};
pub use reader::Reader;
pub use walk::{next_record, skip_steps};
