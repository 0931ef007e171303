//! A hint that names an object: who gives it, its kind, and the object.
use crate::hint_kind::HintKind;

/// Who gives a hint: the thread, its turn, and the instruction.
#[derive(Clone, Copy, Debug, PartialEq, Eq)]
pub struct HintSite {
    /// The turn's number.
    pub turn: u64,
    /// How many instructions the thread executed in the turn before this one.
    pub instruction: u64,
    /// The instruction's address.
    pub pc: u32,
    /// The thread's number.
    pub thread: u8,
}

/// A thread gives a hint.
#[derive(Clone, Copy, Debug, PartialEq, Eq)]
pub struct HintEvent {
    /// Who gives it.
    pub site: HintSite,
    /// Its kind.
    pub kind: HintKind,
    /// The object, as a register has it.
    pub object: u32,
}
