//! A hart of RV32IM: its registers and pc, one instruction, and a segment up to a stop, over any guest memory.
#![tactic(auto)]

mod arithmetic;
mod cause;
mod control;
mod execute;
mod flow;
mod instruction;
mod instruction_place;
mod memory_access;
mod near;
mod near_run;
mod one_step;
mod reached;
mod segment;
mod slice_end;
mod state;
mod stepped;
mod stop;
mod tables;
mod transfer;
mod trap;

pub use cause::Cause;
pub use instruction_place::InstructionPlace;
pub use memory_access::MemoryAccess;
pub use near::{Near, near_entry};
pub use one_step::step;
pub use reached::Reached;
pub use segment::{run_coded, run_coded_slice, run_to_stop};
pub use slice_end::SliceEnd;
pub use state::Hart;
pub use stepped::Stepped;
pub use stop::Stop;
pub use trap::Trap;
