//! How many bytes each thread's next hint is about.
ghost use Rattle.std.specs.Prelude.{◌≡◌, vec_len};

use std::alloc::{AllocError, Global};

/// How many bytes the next hint of each of the 256 threads is about.
#[derive(Drop)]
pub(crate) struct Lengths {
    lengths: Vec<u32>,
    ghost full: { vec_len lengths ≡ 256 },
}

impl Lengths {
    ghost use Rattle.std.specs.Prelude.{ℕ, IfOk};
    ghost use Rattle.races.specs.Recording.{length_of};
    ghost use Rattle.races.specs.Steps.{length_after};
    ghost use Rattle.races.specs.declared.observed_event.ObservedEvent.TheVariants.{Length};

    /// None is about a byte.
    pub(crate) fn new(alloc: Global) -> Result<Self, AllocError>
        ensures { IfOk result (λ lengths. (thread : ℕ) → length_of lengths thread ≡ 0) }
    {
        Ok(Lengths {
            lengths: vec![in alloc; 0; 256]?,
        })
    }

    /// How many bytes a thread's next hint is about.
    pub(crate) fn of(&self, thread: u8) -> u32
        ensures { result ≡ length_of self.now thread }
    {
        self.lengths[usize::from(thread)]
    }

    /// A thread's next hint is about so many bytes.
    pub(crate) fn set(&mut self, thread: u8, length: u32)
        ensures { (other : ℕ) → length_of self.new other ≡ length_after (length_of self.old) (Length thread length) other }
    {
        self.lengths[usize::from(thread)] = length;
    }
}
