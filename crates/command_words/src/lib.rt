//! The words of a command line in their plain form: counts without K, M, G and e, and help and version as options.
//!
//! - [`plain_words`] gives the plain form of all words.
#![tactic(auto)]

mod numbers;
mod plain;
mod scales;

pub use plain::plain_words;
