//! What a look at two pages found: how many bytes differ, and the last group in which some do.
ghost use Rattle.std.specs.Prelude.{◌+◌, ◌≤◌};
ghost use Rattle.guest_memory.specs.Layout.{page_size};

/// What a look at two pages found.
#[derive(Clone, Copy)]
pub(crate) struct Comparison {
    /// How many of their bytes differ.
    pub(crate) count: u32,
    /// Where a group of bytes begins: the last one of those in which some differ, if any do.
    pub(crate) last: usize,
    ghost inside: { last + 128 ≤ page_size },
}
