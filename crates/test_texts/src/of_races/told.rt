//! Events of small histories, as rows and random histories have them: without memory of their own.
use races::{Access, HintEvent, ObservedEvent};
use std::alloc::{AllocError, Global};

/// An event of a history. Its fields are those of the recorder's event of the same name, in their order.
#[derive(Clone, Copy)]
pub enum Told {
    /// A thread loads or stores bytes of a word.
    Access(Access),
    /// A thread makes another.
    Create(u8, u8),
    /// A thread ends.
    End(u8),
    /// A thread joins an ended one.
    Join(u8, u8),
    /// A thread has a mutex no longer.
    Unlock(u8, u32),
    /// A thread has acquired a mutex.
    Lock(u8, u32),
    /// A thread lets another go, which waited.
    LetGo(u8, u8),
    /// The round of a barrier of two threads is complete.
    Round(u8, u8),
    /// A thread acquires an object.
    Acquire(u8, u32),
    /// A thread releases an object.
    Release(u8, u32),
    /// A thread enters a library region.
    Enter(u8),
    /// A thread leaves a library region.
    Leave(u8),
    /// Bytes from an address on begin a new life.
    Fresh(u32, u32),
    /// A thread called a library from this place.
    Caller(u8, u32),
    /// A thread's next hint is about so many bytes.
    Length(u8, u32),
    /// A hint that names an object.
    Hint(HintEvent),
}

/// The event that the recorder is told.
pub fn event_of(alloc: Global, told: Told) -> Result<ObservedEvent, AllocError> {
    Ok(match told {
        Told::Access(access) => ObservedEvent::Access(access),
        Told::Create(thread, created) => ObservedEvent::Create { thread, created },
        Told::End(thread) => ObservedEvent::End { thread },
        Told::Join(thread, ended) => ObservedEvent::Join { thread, ended },
        Told::Unlock(thread, mutex) => ObservedEvent::Unlock { thread, mutex },
        Told::Lock(thread, mutex) => ObservedEvent::Lock { thread, mutex },
        Told::LetGo(thread, waiter) => ObservedEvent::LetGo { thread, waiter },
        Told::Round(first, second) => return round(alloc, first, second),
        Told::Acquire(thread, object) => ObservedEvent::Acquire { thread, object },
        Told::Release(thread, object) => ObservedEvent::Release { thread, object },
        Told::Enter(thread) => ObservedEvent::Enter { thread },
        Told::Leave(thread) => ObservedEvent::Leave { thread },
        Told::Fresh(address, length) => ObservedEvent::Fresh { address, length },
        Told::Caller(thread, pc) => ObservedEvent::Caller { thread, pc },
        Told::Length(thread, length) => ObservedEvent::Length { thread, length },
        Told::Hint(hint) => ObservedEvent::Hint(hint),
    })
}

/// The round of two threads.
fn round(alloc: Global, first: u8, second: u8) -> Result<ObservedEvent, AllocError> {
    let threads = vec![in alloc; first, second]?;
    Ok(ObservedEvent::Round { threads })
}
