//! The mutexes, condition variables and barriers of a run, and the rows of the call table that work on them.
//!
//! [`Objects`] has 64 of each. It knows who holds each mutex and who waits where, in the order in which they
//! came. It makes no thread ready itself: what a call answers says how the caller goes on and which threads
//! are let go. Nothing here takes memory.
#![tactic(auto)]

mod answer;
mod objects;
mod wait_place;
mod waiter;
mod woken;

pub use answer::Answer;
pub use objects::{Objects, WAITERS};
pub use wait_place::WaitPlace;
pub use waiter::Waiter;
pub use woken::Woken;
