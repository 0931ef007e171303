//! Guest memory in pages: a whole memory, and snapshots that share copy-on-write pages and keep decoded code.
#![tactic(auto)]

pub mod access;
mod change;
mod decoding;
mod level;
mod little_endian;
mod node;
pub mod number;
pub mod page;
pub mod page_memory;
mod page_tree;
pub mod snapshot;
pub mod whole_memory;
mod zeros;

pub use guest_memory::{AccessFault, GuestMemory, Perm, StoreFault};
pub use number::Number;
pub use page::Page;
pub use page_memory::{PageMemory, PageStore};
pub use snapshot::Snapshot;
pub use whole_memory::WholeMemory;
