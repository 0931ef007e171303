//! What a file is, in words: what it is for, and why it is refused as a program, if it is. Any bytes have such a text.
//!
//! - [`facts_text`] is the text of a file.
//! - [`write_reason`] appends why a file is refused, as a sentence.
#![tactic(auto)]

mod facts;
mod fields;
mod header;
mod header_names;
mod reasons;
mod sections;
mod segments;

pub use facts::facts_text;
pub use reasons::write_reason;
