//! Core files of runs: the registers of each thread and the memory, as debuggers read them.
//!
//! - [`write_core`] writes the core file of some threads and a memory.
//! - [`core_threads`] gives the threads of a run as a core file shows them.
#![tactic(auto)]

mod core_fault;
mod core_program_header;
mod core_thread;
mod heads;
mod notes;
mod numbers;
mod run;
mod runs;
mod threads;
mod writing;

pub use core_fault::CoreFault;
pub use core_thread::CoreThread;
pub use threads::core_threads;
pub use writing::write_core;
