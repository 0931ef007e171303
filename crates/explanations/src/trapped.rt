//! A thread that trapped, as far as a line tells of it.
use hart::Trap;

/// A thread that trapped.
#[derive(Clone, Copy)]
pub struct Trapped {
    /// Its number.
    pub thread: u32,
    /// The address of the instruction that traps.
    pub pc: u32,
    /// The trap.
    pub trap: Trap,
    /// What x2 holds, by which programs address their stack.
    pub stack_pointer: u32,
    /// Whether the page above that of the trap's value can be stored to.
    pub is_writable_above: bool,
    /// How many instructions a thread may execute.
    pub bound: u64,
}
