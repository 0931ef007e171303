//! The calls that a hart makes by ECALL: which call its registers name, and what a completed call leaves
//! in them.
#![tactic(auto)]

mod answer;
mod request;

pub use answer::finish;
pub use request::call_of;
