//! The sharing report of a run: how each page with a changed byte was shared.
//!
//! - [`report`] makes the rows from the changes of a run's turns, one for each such page, ascending.
//! - [`SharingRecorder`] keeps the rows up to date as a run's turns are done.
//! - [`report_text`] is the text of rows, a line for each.
//! - [`one_report`] says that the changes of turns have one report. It has no code.
//!
//! `report` and `report_text` fail only when memory runs out.
#![tactic(auto)]

mod byte_change;
mod changer;
mod clashes;
mod counting;
mod law;
mod mark;
mod page_row;
mod page_state;
mod page_states;
mod pages;
mod shared_phases;
mod sharing;
mod sharing_recorder;
mod text;
mod thread_set;
mod turn_count;

pub use law::one_report;
pub use page_row::PageRow;
pub use sharing::report;
pub use sharing_recorder::SharingRecorder;
pub use text::report_text;
