//! The kinds of hints that name an object: the number of each, and the kind of a number. Takes no memory.
ghost use Rattle.std.specs.Prelude.{◌≡◌, Some};
ghost use Rattle.races.specs.Hints.{number_of, kind_of};

/// What a library says of an object by a hint.
#[derive(Clone, Copy, Debug, PartialEq, Eq)]
pub enum HintKind {
    /// A thread of the program begins here: the object is the program's number of it, 0 for the first one.
    Begin,
    /// Bytes are dead from now on: the object is the address of the first.
    Dead,
    /// An atomic load of the object.
    AtomicLoad,
    /// An atomic store of the object, or a read-modify-write of it.
    AtomicStore,
    /// A relaxed load of the object has come.
    SeenAcquire,
    /// A release fence. Any object.
    FenceRelease,
    /// An acquire fence. Any object.
    FenceAcquire,
    /// A relaxed store of the object comes.
    RelaxedRelease,
    /// The thread has a lock from now on, by a call that would have waited for it.
    Lock,
    /// The same of a lock that it shares.
    Share,
    /// The thread has a lock from now on, by a call that doesn't wait.
    TryLock,
    /// The same of a lock that it shares.
    TryShare,
    /// The thread lets a lock go, its own or a shared one.
    Unlock,
    /// Misuse: an unlock of a lock that another thread has.
    UnlockOfAnothers,
    /// Misuse: an unlock of a lock that nobody has.
    UnlockOfFree,
    /// Misuse: a thread ends with a lock.
    EndWithLock,
    /// Misuse: a lock is destroyed that a thread has or waits for.
    DestroyOfHeld,
    /// Misuse: a condition or a barrier is destroyed that a thread waits for.
    DestroyOfWaited,
    /// Misuse: a wait for a condition without its mutex.
    WaitWithoutLock,
    /// Misuse: a wait for a condition for which others wait with another mutex.
    WaitWithAnother,
    /// Misuse: a mutex is taken again by the thread that has it.
    TakenTwice,
    /// Misuse: a lock is taken for writing by a thread that shares it.
    WriteByReader,
}

/// All kinds, in the order of their numbers.
static KINDS: [HintKind; 22] = [
    HintKind::Begin,
    HintKind::Dead,
    HintKind::AtomicLoad,
    HintKind::AtomicStore,
    HintKind::SeenAcquire,
    HintKind::FenceRelease,
    HintKind::FenceAcquire,
    HintKind::RelaxedRelease,
    HintKind::Lock,
    HintKind::Share,
    HintKind::TryLock,
    HintKind::TryShare,
    HintKind::Unlock,
    HintKind::UnlockOfAnothers,
    HintKind::UnlockOfFree,
    HintKind::EndWithLock,
    HintKind::DestroyOfHeld,
    HintKind::DestroyOfWaited,
    HintKind::WaitWithoutLock,
    HintKind::WaitWithAnother,
    HintKind::TakenTwice,
    HintKind::WriteByReader,
];

impl HintKind {
    /// The kind with a number, which is the immediate of its instruction. None if no kind has it.
    #[tactic(auto, unfolding(crate::specs::Hints::kind_of))]
    pub fn from_number(number: u32) -> Option<Self>
        ensures { result ≡ kind_of number }
    {
        KINDS.iter().copied().find(|kind| kind.number() == number)
    }

    /// Its number, 3 to 40.
    #[tactic(auto, unfolding(crate::specs::Hints::kind_of))]
    pub fn number(self) -> u32
        ensures number { result ≡ number_of self }
        ensures back { kind_of result ≡ Some self }
    {
        match self {
            HintKind::Begin => 3,
            HintKind::Dead => 4,
            HintKind::AtomicLoad => 5,
            HintKind::AtomicStore => 6,
            HintKind::SeenAcquire => 7,
            HintKind::FenceRelease => 8,
            HintKind::FenceAcquire => 9,
            HintKind::RelaxedRelease => 10,
            HintKind::Lock => 16,
            HintKind::Share => 17,
            HintKind::TryLock => 18,
            HintKind::TryShare => 19,
            HintKind::Unlock => 20,
            HintKind::UnlockOfAnothers => 32,
            HintKind::UnlockOfFree => 33,
            HintKind::EndWithLock => 34,
            HintKind::DestroyOfHeld => 35,
            HintKind::DestroyOfWaited => 36,
            HintKind::WaitWithoutLock => 37,
            HintKind::WaitWithAnother => 38,
            HintKind::TakenTwice => 39,
            HintKind::WriteByReader => 40,
        }
    }
}
