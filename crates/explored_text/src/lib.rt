//! The text of an exploration: a head, a table with a line for each row, and for rows that failed a command that shows it.
//!
//! ```text
//! 1000 runs, 2 outcomes
//!    runs  first  outcome   output
//!     951      1  exit 0    e3b0c44298fc1c14  "5 philosophers, 10 meals"
//!      49      4  deadlock  a1c7f20d5e88b3f6  "philosopher 3 has one fork"
//! deadlock: dthreads run philosophers.elf --shuffle 4:39-41
//!   phase 41: threads 3 1 in place of 1 2 3
//! ```
#![tactic(auto)]

mod columns;
mod commands;
mod counts;
mod differences;
mod hashes;
mod setting;
mod table;
mod widths;

pub use commands::push_command;
pub use differences::{push_difference, push_no_phase};
pub use setting::Setting;
pub use table::push_table;
