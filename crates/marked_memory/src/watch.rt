//! A watched range of addresses.
ghost use Rattle.std.specs.Prelude.{◌≡◌};
ghost use Rattle.marked_memory.specs.Marks as marks;

/// Which accesses a watch looks for.
#[derive(Clone, Copy, Debug, PartialEq, Eq)]
pub enum WatchKind {
    /// Stores.
    Store,
    /// Loads.
    Load,
    /// Both.
    Access,
}

/// A watched range of addresses.
#[derive(Clone, Copy, Debug, PartialEq, Eq)]
pub struct Watch {
    /// The first address.
    pub start: u32,
    /// How many addresses.
    pub len: u32,
    /// Which accesses it looks for.
    pub kind: WatchKind,
}

impl Watch {
    /// Whether it looks for stores.
    pub fn looks_for_stores(&self) -> bool
        ensures { result ≡ marks.looks_for_stores self.now.kind }
    {
        match self.kind {
            WatchKind::Store | WatchKind::Access => true,
            WatchKind::Load => false,
        }
    }

    /// Whether it looks for loads.
    pub fn looks_for_loads(&self) -> bool
        ensures { result ≡ marks.looks_for_loads self.now.kind }
    {
        match self.kind {
            WatchKind::Load | WatchKind::Access => true,
            WatchKind::Store => false,
        }
    }

    /// Whether an address is in the range.
    pub fn has(&self, address: u32) -> bool
        ensures { result ≡ marks.has self.now address }
    {
        self.start <= address && address - self.start < self.len
    }
}
