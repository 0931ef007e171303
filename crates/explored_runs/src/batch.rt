//! A part of a range of numbers.
ghost use Rattle.std.specs.Prelude.{◌≡◌, ◌^◌, ◌<◌};

/// Numbers that are run before any of them is counted.
#[derive(Clone, Copy, Debug, PartialEq, Eq)]
pub(crate) struct Batch {
    /// The first number of the range.
    pub(crate) from: u32,
    /// How many numbers of the range come before the batch.
    pub(crate) done: u32,
    /// How many numbers the batch has.
    pub(crate) count: u32,
}

impl Batch {
    ghost use Rattle.explored_runs.specs.Batch.{number_at};

    /// The number at a place of the batch.
    pub(crate) fn number(self, place: u32) -> u32
        requires { number_at self place < 2 ^ 32 }
        ensures { result ≡ number_at self place }
    {
        self.from + self.done + place
    }
}
