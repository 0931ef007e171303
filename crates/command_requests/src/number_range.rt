//! A range of schedules' numbers, all of which have 32 bits.
ghost use Rattle.std.specs.Prelude.{◌+◌, ◌^◌, ◌<◌, ◌≤◌};

/// A range of schedules' numbers.
#[derive(Clone, Copy)]
pub struct NumberRange {
    /// The first of them, from 1.
    pub from: u32,
    /// How many there are. The last one is below 2^32.
    pub count: u32,
    ghost some: { 0 < from },
    ghost within: { from + count ≤ 2 ^ 32 },
}
