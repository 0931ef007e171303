//! Hexadecimal digits appended to a text, and pieces of bytes written to any writer.
//!
//! - [`write_hexadecimal`] appends hexadecimal digits to a text.
//! - [`write_some`] writes a first piece of some bytes and says how many it has.
#![tactic(auto)]

pub mod digits;
pub mod some;

pub use digits::write_hexadecimal;
pub use some::{NotWritten, write_some};
