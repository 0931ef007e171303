//! A phase's jobs as workers draw them and execute them in slices, and the gate that is told of it.
//!
//! [`SharedJobs`] is what those who have seats share. Nobody waits here, and no thread is started: who works, and in which
//! thread, say the crates above.
#![tactic(auto)]

pub mod gate;
pub mod open_gate;
mod shared_jobs;

pub use gate::Gate;
pub use open_gate::OpenGate;
pub use shared_jobs::SharedJobs;
