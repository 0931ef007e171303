//! The text of a written schedule, a line for each event, read into events.
#![tactic(auto)]

mod line;
mod parse_fault;
mod parsing;

pub use parse_fault::ParseFault;
pub use parsing::parse;
