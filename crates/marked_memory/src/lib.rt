//! A memory with marks, which refuses what is marked, and a segment that is run over it up to a mark.
//!
//! - [`Marks`] are addresses whose instructions are looked for, and ranges whose loads and stores are.
//! - [`run_to_mark`] executes instructions of a segment as long as none of them is marked, as fast as without marks.
#![tactic(auto)]

mod fence;
mod marked;
mod marks;
mod part;
mod running;
mod watch;
mod window;

pub use marks::Marks;
pub use running::{RunToMark, run_to_mark};
pub use watch::{Watch, WatchKind};
