//! The state of a run between two turns, and what each call makes of it.
#![tactic(auto)]

pub mod shared_state;
mod state_in_call;

pub use shared_state::SharedState;
