//! The codes that a call answers, and their numbers. Takes no memory.
ghost use Rattle.std.specs.Prelude.{◌≡◌};
ghost use Rattle.abi.specs.Codes.{number_of};

/// What a completed call leaves in x10.
#[derive(Clone, Copy, Debug, PartialEq, Eq)]
pub enum Code {
    /// 0: done.
    Done,
    /// 1: no call has this number.
    NoSuchCall,
    /// 2: an argument is outside its range.
    BadArgument,
    /// 3: an address of the range isn't mapped, or its page lacks the permission.
    BadAddress,
    /// 4: a limit would be passed.
    Limit,
    /// 5: the caller doesn't hold the mutex.
    NotHolder,
    /// 6: the caller holds a mutex, and may not wait with it.
    HoldsLock,
    /// 7: no such thread, or the caller itself.
    NoSuchThread,
    /// 8: the caller holds the mutex already.
    AlreadyHeld,
    /// 9: those who wait at the barrier named another count.
    CountDiffers,
}

impl Code {
    /// The number that stands for the code, 0 to 9.
    pub fn number(self) -> u32
        ensures { result ≡ number_of self }
    {
        match self {
            Code::Done => 0,
            Code::NoSuchCall => 1,
            Code::BadArgument => 2,
            Code::BadAddress => 3,
            Code::Limit => 4,
            Code::NotHolder => 5,
            Code::HoldsLock => 6,
            Code::NoSuchThread => 7,
            Code::AlreadyHeld => 8,
            Code::CountDiffers => 9,
        }
    }
}
