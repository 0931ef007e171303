//! A run of mapped pages with equal permissions.
ghost use Rattle.std.specs.Prelude.{◌≡◌, ◌+◌, ◌<◌, ◌^◌, true, false};

use guest_memory::Perm;

/// A run of mapped pages that permit the same, by the numbers of the pages.
#[derive(Clone, Copy)]
pub(crate) struct Run {
    /// The number of its first page.
    pub first: u32,
    /// How many pages it has.
    pub count: u32,
    /// What each of them permits.
    pub perm: Perm,
}

impl Run {
    ghost use Rattle.core_file.specs.Runs.{GoesOnWith, longer};

    /// Whether another run begins where this one ends, and permits the same.
    pub(crate) fn goes_on_with(&self, next: &Run) -> bool
        requires { self.now.first + self.now.count < 2 ^ 32 }
        ensures yes { result ≡ true → GoesOnWith self.now next.now }
        ensures no { result ≡ false → ¬ GoesOnWith self.now next.now }
    {
        self.first + self.count == next.first && self.perm == next.perm
    }

    /// The run with a page more.
    pub(crate) fn longer(self) -> Run
        requires { self.count + 1 < 2 ^ 32 }
        ensures { result ≡ longer self }
    {
        Run {
            count: self.count + 1,
            ..self
        }
    }
}
