//! A trap: its cause and its value.
use crate::cause::Cause;

/// A trap. The instruction that traps changes nothing and isn't counted.
#[derive(Clone, Copy, Debug, PartialEq, Eq)]
pub struct Trap {
    /// Why it traps.
    pub cause: Cause,
    /// The cause's value: an address, a target, a word, or 0.
    pub value: u32,
}
