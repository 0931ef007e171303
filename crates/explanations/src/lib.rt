//! How a run ended, in words for people: what a trapped thread did and where, and what each thread of a deadlock waits for.
//!
//! - [`trap_text`] is the line of a trap.
//! - [`waits_text`] is a line for each thread that waits.
//!
//! Functions are named by the symbols of the program's file. Both fail only when memory runs out.
#![tactic(auto)]

mod places;
mod trapped;
mod traps;
mod waits;
mod words;

pub use trapped::Trapped;
pub use traps::trap_text;
pub use waits::waits_text;
