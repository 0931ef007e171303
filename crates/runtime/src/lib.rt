//! The run time: a file, its input and a configuration go in, and a report of the run comes out.
#![tactic(auto)]

mod all_taken;
mod interruption;
mod look;
mod open_fault;
mod opening;
mod recorded_run;
mod recording;
mod refusal;
mod report;
mod reporting;
mod run_end;
mod run_fault;
mod running;
mod sending;
mod sink;
mod turns;
mod write_sink;

pub use abi::limits::{MAX_BOUND, MAX_INPUT, MAX_WORKERS};
pub use all_taken::AllTaken;
pub use interruption::Interruption;
pub use open_fault::OpenFault;
pub use opening::open_image;
pub use phase_jobs::{Gate, OpenGate};
pub use recorded_run::RecordedRun;
pub use recording::{conclude, open_run, run_opened, run_recorded};
pub use refusal::Refusal;
pub use report::Report;
pub use run_end::RunEnd;
pub use run_fault::RunFault;
pub use running::{run, run_into};
pub use sending::send;
pub use shuffled_phases::{Config, Shuffle};
pub use sink::{Sink, SinkFault};
pub use token::{Both, Kept, NoRecord, Recorder, RunOutcome, Start};
pub use write_sink::WriteSink;
