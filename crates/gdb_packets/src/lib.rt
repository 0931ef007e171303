//! The packets of gdb's remote protocol: frames of bytes, what a packet asks for, and how an answer is framed.
//!
//! - [`Deframer`] takes bytes one by one, and says when a packet, an acknowledgement or an interrupt was heard.
//! - [`parse`] reads the text of a packet into a [`PacketRequest`].
//! - [`Wire`] frames the answers, and keeps the bytes for gdb.
#![tactic(auto)]

mod action;
mod deframer;
mod digits;
mod framing;
mod numbers;
mod packet_request;
mod parsing;
mod resuming;
mod sums;
mod thread_id;
mod window;
mod wire;

pub use action::{Action, Motion, Scope};
pub use deframer::{Deframer, Heard, PACKET_LIMIT};
pub use digits::{bytes_of_digits, write_byte, write_bytes, write_word};
pub use framing::{frame, unescaped};
pub use numbers::{number, split_at_byte};
pub use packet_request::{PacketRequest, PointKind};
pub use parsing::parse;
pub use resuming::actions_of;
pub use sums::checksum;
pub use thread_id::ThreadId;
pub use window::Window;
pub use wire::Wire;
