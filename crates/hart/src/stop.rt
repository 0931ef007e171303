//! Why a segment stops: bound, quantum, trap or call.
use crate::trap::Trap;

/// Why a segment of instructions stops.
#[derive(Clone, Copy, Debug, PartialEq, Eq)]
pub enum Stop {
    /// The next instruction traps, or the bound is reached.
    Trap(Trap),
    /// An ecall. It is counted, and pc stays on it.
    Ecall,
    /// The quantum is used up.
    Quantum,
}
