// The planner: what a buoy runs. The layers are private; what is public here are the calls of document 01 that change or judge a list.

#![tactic(auto)]

mod chains;
mod entries;
mod judged;
mod late;
mod list;
mod memory;
mod requests;
mod tighten;
mod times;

pub use late::{lateness, shortest};
pub use list::judge;
pub use memory::is_book;
pub use requests::{Request, apply};
