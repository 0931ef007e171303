//! Timelines of runs for trace viewers, in the Trace Event Format: one event a line.
//!
//! It is what the option `--timeline` writes. The crate `timeline` is the debugger's.
//!
//! Time is in instructions, as the run would take them if each thread had a processor of its own. The segments of a
//! phase begin together; the turns follow in token order, none before the end of its segment; the segment of a thread
//! that kept the token begins at its turn.
//!
//! - [`TimelineRecorder`] writes the timeline of a run's turns to a writer as they are done. What it keeps grows with
//!   the threads of the run, and not with its turns.
#![tactic(auto)]

mod ending;
mod event;
mod events;
mod outlet;
mod pages;
mod phase_counts;
mod recorded_turn;
mod release;
mod run_progress;
mod sum;
mod thread_state;
mod threads;
mod timed_turn;
mod timeline_recorder;
mod wait;
mod waiting_thread;

pub use timeline_recorder::TimelineRecorder;
