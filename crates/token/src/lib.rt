//! Legal histories and their law, and the serial state of a run, which takes turns in token order.
#![tactic(auto)]

mod both;
pub mod due;
mod is_wanted;
pub mod kept;
pub mod law;
pub mod need;
pub mod next;
mod no_record;
pub mod outcome;
mod phase;
pub mod recorder;
pub mod run_in_turn;
mod segment_turn;
pub mod segments;
pub mod serial;
pub mod start;
pub mod turn;
pub mod turn_change;
pub mod turn_fault;
mod verdict;
pub mod wanted;

pub use both::Both;
pub use due::Due;
pub use is_wanted::IsWanted;
pub use kept::Kept;
pub use law::one_history;
pub use need::{Need, Work};
pub use next::{Next, next_turn};
pub use no_record::NoRecord;
pub use outcome::RunOutcome;
pub use recorder::Recorder;
pub use segment::SegmentEnd;
pub use segments::segment_of;
pub use serial::Serial;
pub use start::Start;
pub use turn::{Turn, TurnStop};
pub use turn_change::TurnChange;
pub use turn_fault::TurnFault;
pub use wanted::Wanted;
