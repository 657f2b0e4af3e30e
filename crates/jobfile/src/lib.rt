// Job files: one record read at an offset, a whole file read, a book written out.

#![tactic(auto)]

mod file;
mod reader;
mod writer;

pub use file::{Ended, read_file};
pub use reader::{Event, read};
pub use writer::write;
