//! A run whose loads, stores, calls and hints are told to a recorder of findings.
#![tactic(auto)]

mod actor;
mod before;
mod call_events;
mod instruction_event;
mod observed_loop;
mod observed_run;
mod observer;
mod observing;
mod ranges;
mod retyped;
mod run;
mod telling;
mod told_near;

pub use observed_run::ObservedRun;
pub use run::run_observed;
