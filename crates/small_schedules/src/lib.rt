//! A small schedule by which a program fails, made of a number by which it fails.
#![tactic(auto)]

mod differing;
mod making;
mod measure;
mod phase_difference;
mod run_trial;
mod searching;
mod settling;
mod small;
mod trial;
mod walking;

pub use making::make_small;
pub use phase_difference::PhaseDifference;
pub use small::Small;
