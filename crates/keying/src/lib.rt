// Keyed text and job files: lines such as `JB 0 4` become the records of document 01, and records become lines.

#![tactic(auto)]

mod entry;
mod keyed;
mod lined;
mod reader;
mod word;

pub use entry::Slip;
pub use keyed::{Mistake, key};
pub use lined::lines;
