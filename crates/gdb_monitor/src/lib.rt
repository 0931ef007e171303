//! The commands that a user of gdb gives by `monitor`: texts about the run, and positions found without moving for gdb.
//!
//! - [`command_of`] reads a command, and [`perform_command`] does it.
//! - [`step_of`] and [`existing`] find a position: the run goes there and comes back.
#![tactic(auto)]

mod command;
mod name;
mod performing;
mod reading;
mod searching;
mod texts;
mod trace;
mod writers;

pub use command::{Command, Span};
pub use performing::perform_command;
pub use reading::command_of;
pub use searching::{existing, step_named, step_of};
