//! The threads of a run: status, hart and instruction count of each, and what create, join and a thread's end make of them.
#![tactic(auto)]

mod numbers;
mod status;
mod thread;
mod threads;

pub use numbers::{CAPACITY, ThreadNumbers};
pub use status::Status;
pub use thread::Thread;
pub use threads::Threads;
