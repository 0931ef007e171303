//! The host threads of a whole run: whichever executes a job, the caller gets the segment end that it needs next.
//!
//! [`Pool`] is the caller's. It shares the run's phases out to its workers, who serve at its [`WorkerChannels`]. What they tell carries
//! its fact: that it is the end of that thread's segment in that phase of this run.
#![tactic(auto)]

mod ends_of_run;
mod first_job;
mod of_run;
mod opening;
mod pool;

pub use ends_of_run::EndsOfRun;
pub use of_run::OfRun;
pub use opening::jobs_of;
pub use phase_workers::WorkerChannels;
pub use pool::Pool;
