//! The events of written schedules that workers make, and what a phase counts of them.
#![tactic(auto)]

pub mod end;
pub mod event;
pub mod fate;
pub mod job_progress;
pub mod worker;

pub use end::ends_run;
pub use event::Event;
pub use fate::Fate;
pub use job_progress::JobProgress;
pub use worker::{Held, Worker};
