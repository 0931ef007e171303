//! A fence around some code, outside of which no instruction is executed.
ghost use Rattle.std.specs.Prelude.{◌≡◌};
ghost use Rattle.marked_memory.specs.Marks.{is_beyond};

/// Addresses, of which those outside are taken for marked.
#[derive(Clone, Copy)]
pub(crate) struct Fence {
    /// The first address.
    pub(crate) start: u64,
    /// The address after the last one.
    pub(crate) end: u64,
}

impl Fence {
    /// Whether an address is outside.
    pub(crate) fn keeps_out(&self, address: u32) -> bool
        ensures { result ≡ is_beyond self.now address }
    {
        u64::from(address) < self.start || self.end <= u64::from(address)
    }
}
