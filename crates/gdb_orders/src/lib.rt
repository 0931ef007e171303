//! What gdb orders of a run: the points at which it stops, the threads that are meant, and how it moves.
//!
//! - [`Points`] are the breakpoints and the watched ranges.
//! - [`Selection`] has the threads that gdb has heard of and those that it means.
//! - [`Order`] is what a packet that resumes orders ([`order_of`], [`order_selected`]).
#![tactic(auto)]

mod order;
mod ordering;
mod points;
mod selection;

pub use order::{Order, Stepper};
pub use ordering::{order_of, order_selected};
pub use points::Points;
pub use selection::{Selection, thread_of};
