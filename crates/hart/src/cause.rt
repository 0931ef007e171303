//! Why an instruction traps, and the number of each cause.
ghost use Rattle.std.specs.Prelude.{◌≡◌};
ghost use Rattle.hart.specs.Cause.{number_of};

/// Why an instruction traps. What a trap's value is stands beside each cause.
#[derive(Clone, Copy, Debug, PartialEq, Eq)]
pub enum Cause {
    /// A taken branch or a jump to an address that is no multiple of 4, raised on the branch or jump: the
    /// target.
    TargetMisaligned,
    /// A fetch of a byte that isn't executable: the address.
    FetchDenied,
    /// A word that is no instruction of RV32IM: the word.
    IllegalInstruction,
    /// EBREAK: 0.
    Breakpoint,
    /// A load at an address that is no multiple of its width: the address.
    LoadMisaligned,
    /// A load of a byte that isn't readable: the address.
    LoadDenied,
    /// A store at an address that is no multiple of its width: the address.
    StoreMisaligned,
    /// A store to a byte that isn't writable: the address.
    StoreDenied,
    /// The hart has executed as many instructions as it may, and would execute another: 0.
    BoundReached,
}

impl Cause {
    /// The number of the cause: those below 16 are the exception codes of the RISC-V Privileged
    /// Architecture, and 16 is the reached bound.
    pub fn number(self) -> u32
        ensures { result ≡ number_of self }
    {
        match self {
            Cause::TargetMisaligned => 0,
            Cause::FetchDenied => 1,
            Cause::IllegalInstruction => 2,
            Cause::Breakpoint => 3,
            Cause::LoadMisaligned => 4,
            Cause::LoadDenied => 5,
            Cause::StoreMisaligned => 6,
            Cause::StoreDenied => 7,
            Cause::BoundReached => 16,
        }
    }
}
