//! Rows of tests that are data: the texts of the folder data/, their fields, what of a row isn't as wanted, and its line.
//!
//! [`text_at`] reads a file of the folder that the program runs in. [`Differences`] notes what of a row isn't as wanted, and [`show`]
//! prints its line.
#![tactic(auto)]

mod data;
mod differences;
mod fields;
mod row;

pub use data::{is_named, text_at};
pub use differences::Differences;
pub use fields::{WRONG, byte, bytes, decimal, push_whole, small, split, word};
pub use row::{is_chosen, show};
