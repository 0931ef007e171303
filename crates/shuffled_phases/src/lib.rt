//! Schedules by number: which list a phase has, and after how many instructions its segments end, as a number draws it; and the configuration of
//! a run, which names one.
#![tactic(auto)]

mod config;
pub mod draws;
mod lengths;
mod order;
mod part;
mod phases;
mod shuffle;
mod sort_key;

pub use config::Config;
pub use lengths::drawn_length;
pub use part::{Part, shuffled};
pub use phases::{choices_at_start, fill_list, number_at_start, quantum_of};
pub use shuffle::Shuffle;
pub use sort_key::SortKey;
