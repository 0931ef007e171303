//! Files by their paths: reading them, and outputs that take a file's place once they are whole. Standard streams that are closed.
#![tactic(auto)]

mod access;
mod begin_fault;
mod file_name;
mod held_streams;
mod host_files;
mod host_output;
mod identity;
mod links;
mod read_fault;
mod reading;
mod write_fault;

pub use access::Files;
pub use begin_fault::BeginFault;
pub use file_name::{FileName, PART};
pub use held_streams::{HeldStreams, PLACE_HOLDER, hold_streams, is_open};
pub use host_files::HostFiles;
pub use host_output::HostOutput;
pub use read_fault::ReadFault;
pub use reading::read_upto;
pub use write_fault::WriteFault;
