//! The digest of a run: four lines that tell whether two runs were the same.
//!
//! ```text
//! outcome exit 2
//! output e3b0c44298fc1c149afbf4c8996fb92427ae41e4649b934ca495991b7852b855
//! memory 81de2360a7daf154525d815407240c244489bc0ce69bb2bf0afbdcfea289c575
//! trace 1a2a4f9bd89ec4401ebcadb0ae04cb22cea4bd0adc0188d6d00399893f4942ba
//! ```
//!
//! The first line has how the run ended: `exit N`, `finished N`, `deadlock`, or a trap with its fields as on
//! standard error. Each other line has the SHA-256 of some bytes, as 64 lower-case hexadecimal digits: of the
//! output; of the final memory; of the trace's text. Of the memory the mapped pages are taken, ascending: of each
//! the eight hexadecimal digits of the address of its first byte, a byte of what it permits (1 for loads, 2 for
//! stores and 4 for fetches, added), and its 4096 bytes.
//!
//! - [`DigestRecorder`] hashes the trace turn by turn, and makes the lines at the end.
//! - [`OutcomeText`] shows how a run ended.
#![tactic(auto)]

mod digest_recorder;
mod digest_text;
mod memory_hash;
mod outcome_text;

pub use digest_recorder::DigestRecorder;
pub use outcome_text::OutcomeText;
