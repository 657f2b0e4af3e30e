// The planner for firmware in C and Rust: numbers and lent memory alone. A book lies in memory as two parts, its times and its sets, and C lends them apart.

#![tactic(auto)]

mod file;
mod list;
mod plans;
mod requests;
mod tell;

pub use file::{firmware_read, firmware_write};
pub use list::{firmware_class, firmware_judge, firmware_lateness, firmware_shortest};
pub use plans::{firmware_place, firmware_plan};
pub use requests::{
    firmware_add_job, firmware_add_order, firmware_draw_in, firmware_is_book, firmware_open,
};
