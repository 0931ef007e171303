//! Why a motion halts.
/// Why a motion halts where it does.
#[derive(Clone, Copy, Debug, PartialEq, Eq)]
pub enum Halt {
    /// At a breakpoint, before the instruction.
    Breakpoint,
    /// At a step with an event of the watch at this place of the list. Forward it halts before the step, back after it.
    Watched(usize),
    /// At an instruction that was waited for.
    Arrived,
    /// At a step of another thread than the one that may move alone. Forward it halts before the step, back after it.
    OtherThread,
    /// Where there are more threads than were known.
    NewThread,
    /// At the last position of the run: its end, or a trap.
    End,
    /// At the first position of the run.
    Start,
    /// Nothing was found so far, and the motion may go on.
    GoesOn,
}
