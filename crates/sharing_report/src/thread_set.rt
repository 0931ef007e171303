//! A set of thread numbers.
ghost use Rattle.std.specs.Prelude.{◌≡◌, ℕ, ◌-◌, ◌^◌, ◌<◌, List, [], ◌∷◌, ◌++◌, IfOk, length, vec_len};

use std::alloc::{AllocError, Global};

/// A set of threads.
#[derive(Drop)]
pub(crate) struct ThreadSet {
    /// Whether each of the 256 threads is in it.
    has: Vec<bool>,
    /// How many it has.
    count: u64,
    ghost full: { vec_len has ≡ 256 },
}

impl ThreadSet {
    ghost use Rattle.sharing_report.specs.Tallies.{IsThreadSet};

    /// No thread.
    pub(crate) fn new(alloc: Global) -> Result<Self, AllocError>
        ensures { IfOk result (λ set. IsThreadSet set []) }
    {
        Ok(ThreadSet {
            has: vec![in alloc; false; 256]?,
            count: 0,
        })
    }

    /// How many threads it has.
    pub(crate) fn count(&self) -> u64
        ensures { result ≡ self.now.count }
    {
        self.count
    }

    /// Puts a thread into it.
    pub(crate) fn add(&mut self, thread: u8)
        ensures { (threads : List ℕ) → IsThreadSet self.old threads →
            length threads < 2 ^ 64 - 1 → IsThreadSet self.new (threads ++ thread ∷ []) }
    {
        let place = usize::from(thread);
        if !self.has[place] {
            self.has[place] = true;
            self.count = self.count.saturating_add(1);
        }
    }
}
