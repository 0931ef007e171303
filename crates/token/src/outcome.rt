//! How a run ends.
use hart::Trap;

/// How a run ends.
#[derive(Clone, Copy, Debug, PartialEq, Eq)]
pub enum RunOutcome {
    /// A thread called exit with this status.
    Exit(u32),
    /// All threads are done; thread 0 ended with this value.
    Finished(u32),
    /// A thread trapped at this pc.
    Trap {
        /// The thread's number.
        thread: u32,
        /// The address of the instruction that traps.
        pc: u32,
        /// The trap.
        trap: Trap,
    },
    /// Threads are left, and none can run.
    Deadlock,
}
