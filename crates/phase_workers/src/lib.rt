//! The host threads at a phase: what each does with the jobs that it draws, and how the caller is given the end that it
//! needs. They may wait for each other.
//!
//! A caller has a [`Dispatcher`]. Its workers serve at the other ends of its channels, the [`WorkerChannels`]: they draw
//! jobs of the phases that the caller shares out, and tell what became of each. Caller and workers take the same steps,
//! by a [`Hand`]. What is told carries its fact, as [`EndFacts`] says it: whose end it is.
#![tactic(auto)]

mod caller_channels;
mod dispatched_phase;
mod dispatcher;
mod drawn_job;
mod end_facts;
mod hand;
mod job_outcome;
mod offer;
mod once_told;
mod post;
mod shared_phase;
mod signals;
mod step_outcome;
mod stop_flag;
mod worker_channels;

pub use dispatcher::Dispatcher;
pub use end_facts::EndFacts;
pub use hand::Hand;
pub use shared_phase::SharedPhase;
pub use worker_channels::WorkerChannels;
