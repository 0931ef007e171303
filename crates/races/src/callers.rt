//! From where in the program each thread called a library.
ghost use Rattle.std.specs.Prelude.{◌≡◌, vec_len};

use std::alloc::{AllocError, Global};

/// From where in the program each of the 256 threads called a library, as its last hint of that said.
#[derive(Drop)]
pub(crate) struct Callers {
    callers: Vec<Option<u32>>,
    ghost full: { vec_len callers ≡ 256 },
}

impl Callers {
    ghost use Rattle.std.specs.Prelude.{ℕ, IfOk, None};
    ghost use Rattle.races.specs.Recording.{caller_of};
    ghost use Rattle.races.specs.Steps.{caller_after};
    ghost use Rattle.races.specs.declared.observed_event.ObservedEvent.TheVariants.{Caller};

    /// No thread called one.
    pub(crate) fn new(alloc: Global) -> Result<Self, AllocError>
        ensures { IfOk result (λ callers. (thread : ℕ) → caller_of callers thread ≡ None) }
    {
        Ok(Callers {
            callers: vec![in alloc; None; 256]?,
        })
    }

    /// From where a thread called one.
    pub(crate) fn of(&self, thread: u8) -> Option<u32>
        ensures { result ≡ caller_of self.now thread }
    {
        self.callers[usize::from(thread)]
    }

    /// A thread calls one.
    pub(crate) fn set(&mut self, thread: u8, pc: u32)
        ensures { (other : ℕ) → caller_of self.new other ≡ caller_after (caller_of self.old) (Caller thread pc) other }
    {
        self.callers[usize::from(thread)] = Some(pc);
    }
}
