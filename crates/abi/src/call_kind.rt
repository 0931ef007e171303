//! The kinds of calls: the number and the name of each, and the kind of a number. Takes no memory.
ghost use Rattle.std.specs.Prelude.{◌≡◌, Some};
ghost use Rattle.abi.specs.Calls.{fate_of, is_run_end, number_of, name_of, kind_of};
ghost use Rattle.abi.specs.Calls as spec;

use crate::memory_use::MemoryUse;

/// Which call of the call table a call is, without its arguments.
#[derive(Clone, Copy, Debug, PartialEq, Eq)]
pub enum CallKind {
    /// The run ends.
    Exit,
    /// The calling thread ends.
    ThreadExit,
    /// A thread is made.
    Create,
    /// A thread's end is waited for.
    Join,
    /// A mutex is taken.
    Lock,
    /// A mutex is given back.
    Unlock,
    /// A mutex is given back, and a condition variable waited at.
    Wait,
    /// The first that waits at a condition variable is woken.
    Signal,
    /// All that wait at a condition variable are woken.
    Broadcast,
    /// A barrier is waited at.
    Barrier,
    /// Bytes go to the output.
    Write,
    /// Bytes come from the input.
    Read,
    /// Pages are mapped.
    Memory,
    /// Nothing but the commit.
    Sync,
    /// Pages are unmapped.
    Release,
}

/// All calls, in the order of their numbers.
static KINDS: [CallKind; 15] = [
    CallKind::Exit,
    CallKind::ThreadExit,
    CallKind::Create,
    CallKind::Join,
    CallKind::Lock,
    CallKind::Unlock,
    CallKind::Wait,
    CallKind::Signal,
    CallKind::Broadcast,
    CallKind::Barrier,
    CallKind::Write,
    CallKind::Read,
    CallKind::Memory,
    CallKind::Sync,
    CallKind::Release,
];

impl CallKind {
    /// The call with a number, which stands in x17 at an ecall. None where no call has it.
    #[tactic(auto, unfolding(crate::specs::Calls::kind_of))]
    pub fn from_number(number: u32) -> Option<Self>
        ensures { result ≡ kind_of number }
    {
        KINDS.iter().copied().find(|kind| kind.number() == number)
    }

    /// Its number, 1 to 15.
    #[tactic(auto, unfolding(crate::specs::Calls::kind_of))]
    pub fn number(self) -> u32
        ensures number { result ≡ number_of self }
        ensures back { kind_of result ≡ Some self }
    {
        match self {
            CallKind::Exit => 1,
            CallKind::ThreadExit => 2,
            CallKind::Create => 3,
            CallKind::Join => 4,
            CallKind::Lock => 5,
            CallKind::Unlock => 6,
            CallKind::Wait => 7,
            CallKind::Signal => 8,
            CallKind::Broadcast => 9,
            CallKind::Barrier => 10,
            CallKind::Write => 11,
            CallKind::Read => 12,
            CallKind::Memory => 13,
            CallKind::Sync => 14,
            CallKind::Release => 15,
        }
    }

    /// Whether the call with a number ends the run: exit alone does.
    #[tactic(auto, unfolding(crate::specs::Calls::kind_of))]
    pub fn ends_run(number: u32) -> bool
        ensures number { result ≡ spec.ends_run number }
        ensures fate { result ≡ is_run_end (fate_of (kind_of number)) }
    {
        number == CallKind::Exit.number()
    }

    /// What it does in the guest's memory.
    pub fn memory_use(self) -> MemoryUse
        ensures { result ≡ (spec.row_of self).memory }
    {
        match self {
            CallKind::Write => MemoryUse::Loads,
            CallKind::Read => MemoryUse::Stores,
            CallKind::Memory | CallKind::Release => MemoryUse::Maps,
            CallKind::Exit
            | CallKind::ThreadExit
            | CallKind::Create
            | CallKind::Join
            | CallKind::Lock
            | CallKind::Unlock
            | CallKind::Wait
            | CallKind::Signal
            | CallKind::Broadcast
            | CallKind::Barrier
            | CallKind::Sync => MemoryUse::Unused,
        }
    }

    /// Its name in a trace.
    pub fn name(self) -> &'static str
        ensures { result.now ≡ name_of self }
    {
        match self {
            CallKind::Exit => "exit",
            CallKind::ThreadExit => "thread_exit",
            CallKind::Create => "create",
            CallKind::Join => "join",
            CallKind::Lock => "lock",
            CallKind::Unlock => "unlock",
            CallKind::Wait => "wait",
            CallKind::Signal => "signal",
            CallKind::Broadcast => "broadcast",
            CallKind::Barrier => "barrier",
            CallKind::Write => "write",
            CallKind::Read => "read",
            CallKind::Memory => "memory",
            CallKind::Sync => "sync",
            CallKind::Release => "release",
        }
    }
}
