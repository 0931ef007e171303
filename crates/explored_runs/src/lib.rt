//! Runs of one program by many schedules, each by its number, and what they came to: a row for each outcome and output.
#![tactic(auto)]

mod batch;
mod drawing;
mod ending;
mod exploring;
mod failing;
mod last_line;
mod numbered;
mod progress_listener;
mod row;
mod rows;
mod seen_run;
mod shuffled;
mod slots;

pub use ending::Ending;
pub use exploring::explore;
pub use failing::fails;
pub use progress_listener::ProgressListener;
pub use row::Row;
pub use runtime::{Config, OpenFault, RunEnd, RunOutcome, Shuffle};
pub use shuffled::{open_shuffled, run_shuffled, whole};
