//! The trace of a run: one line a turn.
//!
//! A line begins with the phase and the thread and ends with the number of bytes in which the thread's memory
//! differs from its copy and the number of instructions that it executed, both in decimal. Between them stands
//! what the turn did, in one of four forms:
//!
//! ```text
//! 2 0 join 00000001 00000002 00000000 -> wait changed=0 ran=3
//! 2 1 trap 3 00010060 00000000 changed=0 ran=999427
//! 4 1 wake 0 changed=0 ran=0
//! 2 0 quantum 00010018 changed=0 ran=100
//! ```
//!
//! A call shows its name, its three arguments and what it came to; a trap its cause, its pc and its value; a
//! wake the mutex that was taken; the end of a quantum the next instruction's pc. Words are eight lower-case
//! hexadecimal digits; the cause, the mutex and the code of a completed call are decimal.
//!
//! - [`line`] is the line of a turn, with the newline that ends it, and [`write_line`] appends it to a text.
//! - [`write_stop`] appends the middle part of a line, and [`write_call_name`] the name of a call.
//! - [`trace_text`] is the lines of some turns.
//! - [`TraceRecorder`] writes the lines of a run's turns to a writer as they are done.
//!
//! All but the last fail only when memory runs out.
#![tactic(auto)]

mod call_name;
mod reply;
mod trace;
mod trace_recorder;
mod turn_line;

pub use call_name::write_call_name;
pub use token::Turn;
pub use trace::trace_text;
pub use trace_recorder::TraceRecorder;
pub use turn_line::{line, write_line, write_stop};
