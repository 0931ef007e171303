//! What gdb is shown of a run: registers, memory, threads and stops; and what it saw last of the watched ranges.
#![tactic(auto)]

mod description;
mod memory;
mod registers;
mod seen_range;
mod signals;
mod stops;
mod threads;
mod watching;

pub use description::target_description;
pub use memory::{bytes_seen, bytes_shared, memory_text};
pub use registers::{PC, register, register_text, registers_text};
pub use seen_range::SeenRange;
pub use signals::{INTERRUPT, NONE, TRAP, WINDOW, signal_of};
pub use stops::{end_text, exit_text, stop_text};
pub use threads::{ids_text, part_of, threads_text, write_thread};
pub use watching::{WatchHit, Watching};
