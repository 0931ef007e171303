//! What a call does in the guest's memory. Plain data.
ghost use Rattle.std.specs.Prelude.{◌≡◌};
ghost use Rattle.abi.specs.Calls.{is_change};

/// What a call does in the guest's memory, besides the commit.
#[derive(Clone, Copy, Debug, PartialEq, Eq)]
pub enum MemoryUse {
    /// Nothing.
    Unused,
    /// It loads bytes.
    Loads,
    /// It stores bytes.
    Stores,
    /// It maps or unmaps pages.
    Maps,
}

impl MemoryUse {
    /// Whether the shared memory may be another one after it.
    pub fn is_change(self) -> bool
        ensures { result ≡ is_change self }
    {
        match self {
            MemoryUse::Unused | MemoryUse::Loads => false,
            MemoryUse::Stores | MemoryUse::Maps => true,
        }
    }
}
