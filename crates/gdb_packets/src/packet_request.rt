//! What a packet asks for.
use crate::action::Motion;
use crate::thread_id::ThreadId;
use crate::window::Window;

/// What a point at which the run stops looks at.
#[derive(Clone, Copy, Debug, PartialEq, Eq)]
pub enum PointKind {
    /// An instruction, asked for as a breakpoint in memory (Z0).
    Software,
    /// An instruction, asked for as a breakpoint in hardware (Z1).
    Hardware,
    /// Stores (Z2).
    Write,
    /// Loads (Z3).
    Read,
    /// Loads and stores (Z4).
    Access,
}

/// What a packet asks for.
#[derive(Clone, Copy, Debug, PartialEq, Eq)]
pub enum PacketRequest<'a> {
    /// Which features there are, and which gdb has: `qSupported`.
    Features(&'a [u8]),
    /// No acknowledgements from now on.
    NoAcknowledgements,
    /// Why the run stands: `?`.
    WhyStopped,
    /// A part of the target description's file of this name.
    Description(&'a [u8], Window),
    /// A part of the list of threads in XML.
    ThreadsText(Window),
    /// The threads' numbers: `qfThreadInfo`.
    FirstThreads,
    /// The rest of them: `qsThreadInfo`.
    MoreThreads,
    /// A thread's text: `qThreadExtraInfo`.
    ThreadText(ThreadId),
    /// Whether there is such a thread: `T`.
    IsThread(ThreadId),
    /// The thread of the last stop: `qC`.
    CurrentThread,
    /// The thread whose registers and memory are meant from now on: `Hg`.
    SelectGeneral(ThreadId),
    /// The thread that moves from now on: `Hc`.
    SelectMoving(ThreadId),
    /// All registers: `g`.
    Registers,
    /// One register: `p`.
    Register(u64),
    /// Bytes of memory: `m`.
    Memory(Window),
    /// To change registers: `G`, `P`.
    ChangeRegisters,
    /// To change memory: `M`, `X`.
    ChangeMemory,
    /// To stop there from now on: `Z`.
    SetPoint(PointKind, Window),
    /// Not to stop there any more: `z`.
    ClearPoint(PointKind, Window),
    /// Which actions there are: `vCont?`.
    ActionKinds,
    /// To go on, each thread by the first of these actions that is for it: `vCont;`.
    Resume(&'a [u8]),
    /// To go on with the thread that moves: `c`, `s`, `C`, `S`.
    ResumeSelected(Motion),
    /// To go back one instruction: `bs`.
    StepBack,
    /// To go back until something stops the run: `bc`.
    ContinueBack,
    /// A command of the user's, in hexadecimal digits: `qRcmd`.
    Command(&'a [u8]),
    /// Whether the program ran before: `qAttached`.
    WasAttached,
    /// That symbols can be asked for: `qSymbol`.
    Symbols,
    /// To end the debugging: `D`.
    Detach,
    /// To end the program: `vKill`.
    Kill,
    /// To end at once: `k`.
    End,
    /// To stay when the run has ended: `!`.
    Extend,
    /// To begin the run again: `vRun` with its arguments.
    Restart(&'a [u8]),
    /// A packet of a known kind with parts that can't be read.
    Malformed,
    /// Any other.
    Unknown,
}
