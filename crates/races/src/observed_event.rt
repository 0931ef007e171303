//! The events of a run, as a recorder is told them.
use crate::hint_event::HintEvent;
use crate::site::Access;

/// An event of a run.
#[derive(Debug, Drop)]
pub enum ObservedEvent {
    /// A thread loads or stores bytes of a word.
    Access(Access),
    /// A thread makes another.
    Create {
        /// The thread that makes it.
        thread: u8,
        /// The thread that is made.
        created: u8,
    },
    /// A thread ends.
    End {
        /// The thread.
        thread: u8,
    },
    /// A thread's join of an ended thread completes.
    Join {
        /// The thread that joins.
        thread: u8,
        /// The ended thread.
        ended: u8,
    },
    /// A thread has a mutex no longer: by unlock, by wait, or by its end.
    Unlock {
        /// The thread.
        thread: u8,
        /// The mutex.
        mutex: u32,
    },
    /// A thread has acquired a mutex: by lock, or when it goes on after a wait.
    Lock {
        /// The thread.
        thread: u8,
        /// The mutex.
        mutex: u32,
    },
    /// A thread's signal or broadcast lets another thread go. A broadcast is one such event for each.
    LetGo {
        /// The thread that lets go.
        thread: u8,
        /// The thread that waited.
        waiter: u8,
    },
    /// The round of a barrier is complete, and its threads are let go. Each arrived by its last event before.
    Round {
        /// The threads.
        threads: Vec<u8>,
    },
    /// A hint: a thread acquires an object.
    Acquire {
        /// The thread.
        thread: u8,
        /// The object.
        object: u32,
    },
    /// A hint: a thread releases an object.
    Release {
        /// The thread.
        thread: u8,
        /// The object.
        object: u32,
    },
    /// A hint: a library's own data begin.
    Enter {
        /// The thread.
        thread: u8,
    },
    /// A hint: a library's own data end.
    Leave {
        /// The thread.
        thread: u8,
    },
    /// A hint: bytes begin a new life.
    Fresh {
        /// The address of the first of them.
        address: u32,
        /// How many they are.
        length: u32,
    },
    /// A hint: where in the program a library was called. It goes for the later hints of the thread, up to the next such event.
    Caller {
        /// The thread.
        thread: u8,
        /// The place: an address in the program.
        pc: u32,
    },
    /// A hint: how many bytes the thread's next hint `Dead`, `AtomicLoad` or `AtomicStore` is about.
    Length {
        /// The thread.
        thread: u8,
        /// How many they are.
        length: u32,
    },
    /// A hint that names an object.
    Hint(HintEvent),
}
