//! The record of a turn.
use abi::Reply;
use hart::Trap;

/// What ended a turn's segment, or that the turn had none.
#[derive(Clone, Copy, Debug, PartialEq, Eq)]
pub enum TurnStop {
    /// An ecall: its number, x17, its arguments, x10 to x12, and what the call came to.
    Call {
        number: u32,
        arguments: [u32; 3],
        reply: Reply,
    },
    /// A trap at this pc.
    Trap {
        pc: u32,
        trap: Trap,
    },
    /// The quantum was used up. The next instruction is at this pc.
    Quantum {
        pc: u32,
    },
    /// The turn of a woken thread, which took this mutex and executed nothing.
    Wake {
        mutex: u32,
    },
}

/// The record of a turn.
#[derive(Clone, Copy, Debug, PartialEq, Eq)]
pub struct Turn {
    /// The phase, from 1.
    pub phase: u64,
    /// The thread's number.
    pub thread: u32,
    /// The number of the version that the thread worked on a copy of: as many turns were done before it.
    pub base: u64,
    /// How it stopped.
    pub stop: TurnStop,
    /// In how many bytes the thread's memory differs from its copy.
    pub changed: u64,
    /// How many instructions the segment executed.
    pub ran: u64,
}
