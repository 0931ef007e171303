//! A run that can be asked for any of its positions, forward and back.
//!
//! It is the debugger's crate. What the option `--timeline` writes is the crate `trace_events`.
//!
//! A position is a turn and how many instructions of the turn's segment were executed. A [`Timeline`] stands at one and goes
//! to others: forward by execution, back by execution from a checkpoint.
#![tactic(auto)]

mod access;
mod calls;
mod checkpoint;
mod checkpoints;
mod halt;
mod line;
mod motion;
mod present;
mod present_segment;
mod scout;
mod shown;
mod spacing;
mod stage;
mod stops;
mod timeline;
mod told;

pub use halt::Halt;
pub use marked_memory::{Watch, WatchKind};
pub use motion::moved;
pub use shown::Sees;
pub use spacing::Spacing;
pub use stage::Stage;
pub use stops::{Arrival, Stops};
pub use timeline::Timeline;
