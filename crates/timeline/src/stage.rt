//! What stands at a position: an instruction, a wake, a trap or the end.
use hart::Trap;
use token::RunOutcome;

/// What a run is about to do at a position.
#[derive(Clone, Copy, Debug, PartialEq, Eq)]
pub enum Stage {
    /// It executes an instruction of a segment. It may turn out to trap, once the step is tried.
    Segment,
    /// A woken thread takes its mutex.
    Wake,
    /// Nothing: the instruction at this pc traps.
    Trap {
        /// The address of the instruction.
        pc: u32,
        /// The trap.
        trap: Trap,
    },
    /// Nothing: the run has ended.
    End(RunOutcome),
}
