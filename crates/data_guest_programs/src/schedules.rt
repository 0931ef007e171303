//! Schedules that proved tests name, as texts, worked out by hand. What replays of these and of further schedules must give stands
//! in the data of `test_guest_runs`; `tools/dt test rows` compares its texts with these.

mod race;
mod schedule;
mod small;

pub use race::{EARLY_TURN, THREE_WORKERS};
pub use schedule::Schedule;
pub use small::{KEPT_STORE, SIGNAL, SKIP};

/// The schedules.
pub static KEPT: [Schedule; 5] = [THREE_WORKERS, EARLY_TURN, SIGNAL, SKIP, KEPT_STORE];
