//! The calls of a guest thread with their arguments, as plain data.
ghost use Rattle.std.specs.Prelude.{◌≡◌, IsTrue};
ghost use Rattle.abi.specs.Calls.{is_use_of, joined_in, kind_in, memory_use, touched_in};

use crate::call_kind::CallKind;
use crate::touched::Touched;

/// A call, as the registers of a hart at an ecall name it: the number stands in x17, the arguments in x10,
/// x11 and x12. Arguments are any words: their ranges are looked at when the call is carried out.
#[derive(Clone, Copy, Debug, PartialEq, Eq)]
pub enum Call {
    /// 1: ends the run with a status.
    Exit {
        status: u32,
    },
    /// 2: ends the calling thread with a value, and lets go who waits for it.
    ThreadExit {
        value: u32,
    },
    /// 3: makes a thread that starts at an entry with an argument and a stack pointer.
    Create {
        entry: u32,
        argument: u32,
        stack_pointer: u32,
    },
    /// 4: waits for a thread's end, and answers its value.
    Join {
        thread: u32,
    },
    /// 5: takes a mutex.
    Lock {
        mutex: u32,
    },
    /// 6: gives a mutex back.
    Unlock {
        mutex: u32,
    },
    /// 7: gives a mutex back and waits at a condition variable.
    Wait {
        condition: u32,
        mutex: u32,
    },
    /// 8: wakes the first that waits at a condition variable.
    Signal {
        condition: u32,
    },
    /// 9: wakes all that wait at a condition variable.
    Broadcast {
        condition: u32,
    },
    /// 10: waits at a barrier until as many threads as it counts have come.
    Barrier {
        barrier: u32,
        count: u32,
    },
    /// 11: appends bytes to the output.
    Write {
        address: u32,
        length: u32,
    },
    /// 12: takes bytes from the input.
    Read {
        address: u32,
        length: u32,
    },
    /// 13: maps new pages at the heap's top.
    Memory {
        pages: u32,
    },
    /// 14: commits and goes on in the next phase.
    Sync,
    /// 15: unmaps pages of the heap.
    Release {
        address: u32,
        pages: u32,
    },
    /// Any other number.
    Unknown {
        number: u32,
    },
}

impl Call {
    /// Its kind, none if the call table hasn't it.
    pub fn kind(self) -> Option<CallKind>
        ensures { result ≡ kind_in self }
    {
        match self {
            Call::Exit { .. } => Some(CallKind::Exit),
            Call::ThreadExit { .. } => Some(CallKind::ThreadExit),
            Call::Create { .. } => Some(CallKind::Create),
            Call::Join { .. } => Some(CallKind::Join),
            Call::Lock { .. } => Some(CallKind::Lock),
            Call::Unlock { .. } => Some(CallKind::Unlock),
            Call::Wait { .. } => Some(CallKind::Wait),
            Call::Signal { .. } => Some(CallKind::Signal),
            Call::Broadcast { .. } => Some(CallKind::Broadcast),
            Call::Barrier { .. } => Some(CallKind::Barrier),
            Call::Write { .. } => Some(CallKind::Write),
            Call::Read { .. } => Some(CallKind::Read),
            Call::Memory { .. } => Some(CallKind::Memory),
            Call::Sync => Some(CallKind::Sync),
            Call::Release { .. } => Some(CallKind::Release),
            Call::Unknown { .. } => None,
        }
    }

    /// The bytes of the guest's memory that it loads or stores at most.
    pub fn touched(self) -> Touched
        ensures touched { result ≡ touched_in self }
        ensures table { IsTrue (is_use_of result (memory_use (kind_in self))) }
    {
        match self {
            Call::Write { address, length } => Touched::Loads { address, length },
            Call::Read { address, length } => Touched::Stores { address, length },
            Call::Exit { .. }
            | Call::ThreadExit { .. }
            | Call::Create { .. }
            | Call::Join { .. }
            | Call::Lock { .. }
            | Call::Unlock { .. }
            | Call::Wait { .. }
            | Call::Signal { .. }
            | Call::Broadcast { .. }
            | Call::Barrier { .. }
            | Call::Memory { .. }
            | Call::Sync
            | Call::Release { .. }
            | Call::Unknown { .. } => Touched::Nothing,
        }
    }

    /// The thread whose end it waits for, none if it waits for no thread's.
    pub fn joined(self) -> Option<u32>
        ensures { result ≡ joined_in self }
    {
        match self {
            Call::Join { thread } => Some(thread),
            Call::Exit { .. }
            | Call::ThreadExit { .. }
            | Call::Create { .. }
            | Call::Lock { .. }
            | Call::Unlock { .. }
            | Call::Wait { .. }
            | Call::Signal { .. }
            | Call::Broadcast { .. }
            | Call::Barrier { .. }
            | Call::Write { .. }
            | Call::Read { .. }
            | Call::Memory { .. }
            | Call::Sync
            | Call::Release { .. }
            | Call::Unknown { .. } => None,
        }
    }
}
