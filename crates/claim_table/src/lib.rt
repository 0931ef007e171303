//! The numbers of jobs, which several host threads draw without a lock, each number once.
//!
//! [`Draws`] has two words that change in single atomic steps. Word 0 counts draws, word 1 is the least number
//! that was noted. Each thread has a [`DrawSeat`], by which it draws, notes and looks, and which keeps what it did.
//! When all seats are back, [`Draws::gather`] gives their logs.
#![tactic(auto)]

mod draws;
mod job_set;
mod log;
mod rule;
mod seat;
mod seat_log;
mod seat_view;
mod size;

pub use draws::Draws;
pub use job_set::JOBS;
pub use log::Log;
pub use seat::DrawSeat;
pub use seat_log::SeatLog;
pub use seat_view::SeatView;
pub use size::Size;
