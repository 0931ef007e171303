//! What a guest thread can ask for, as plain data: calls, codes, replies and limits.
#![tactic(auto)]

pub mod call;
pub mod call_kind;
pub mod code;
pub mod limits;
pub mod memory_use;
pub mod reply;
pub mod touched;

pub use call::Call;
pub use call_kind::CallKind;
pub use code::Code;
pub use memory_use::MemoryUse;
pub use reply::Reply;
pub use touched::Touched;
