//! Whole phases run by several host threads: all outcomes at the end, or turns taken in order beside later jobs.
//!
//! [`run_phase`] runs all jobs of a phase, and [`run_in_order`] lets a taker take their turns in order meanwhile. A
//! caller with threads of its own opens a [`ParallelPhase`] and lets each of them work.
#![tactic(auto)]

mod collect;
mod drawn;
mod ends_of_phase;
mod finished_job;
mod in_order;
mod of_phase;
mod outcome;
mod parallel_phase;
mod taker_stage;
mod turn_taker;
mod whole_phase;
mod work_done;

pub use claim_table::DrawSeat;
pub use drawn::Drawn;
pub use finished_job::FinishedJob;
pub use in_order::run_in_order;
pub use outcome::Outcome;
pub use parallel_phase::ParallelPhase;
pub use phase_jobs::{Gate, OpenGate};
pub use segment::{Segment as Job, SegmentEnd};
pub use taker_stage::TakerStage;
pub use turn_taker::TurnTaker;
pub use whole_phase::run_phase;
pub use work_done::WorkDone;
