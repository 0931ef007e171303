//! The clocks of the threads.
ghost use Rattle.std.specs.Prelude.{◌≡◌, vec_len};

use crate::clock::Clock;
use std::alloc::{AllocError, Global};

/// So many threads have a clock.
const THREADS: usize = 256;

/// The clock of each thread, by its number.
#[derive(Drop)]
pub(crate) struct ThreadClocks {
    clocks: Vec<Clock>,
    ghost full: { vec_len clocks ≡ 256 },
}

impl ThreadClocks {
    ghost use Rattle.std.specs.Prelude.{ℕ, IfOk, OnOk};
    ghost use Rattle.races.specs.Clocks.{time, time_of, IsJoined, JoinsAt};

    /// No times.
    pub(crate) fn new(alloc: Global) -> Result<Self, AllocError>
        ensures { IfOk result (λ threads. (key thread : ℕ) → time_of threads.clocks.items key thread ≡ 0) }
    {
        Ok(ThreadClocks {
            clocks: ThreadClocks::without_times(alloc)?,
        })
    }

    /// Clocks without times.
    fn without_times(alloc: Global) -> Result<Vec<Clock>, AllocError>
        ensures full { IfOk result (λ clocks. vec_len clocks ≡ 256) }
        ensures none { IfOk result (λ clocks. (key thread : ℕ) → time_of clocks.items key thread ≡ 0) }
    {
        let mut clocks = Vec::with_capacity(alloc, THREADS)?;
        for _count in 0..THREADS {
            clocks.push(Clock::new(alloc))?;
        }
        Ok(clocks)
    }

    /// A time of a thread's clock.
    pub(crate) fn time(&self, of: u8, thread: u8) -> u64
        ensures { result ≡ time_of self.now.clocks.items of thread }
    {
        self.clocks[usize::from(of)].time(thread)
    }

    /// Adds a thread's clock to another.
    pub(crate) fn add(&self, thread: u8, past: &mut Clock) -> Result<(), AllocError>
        ensures { OnOk result (IsJoined (time past.old) (time past.new) (time_of self.now.clocks.items thread)) }
    {
        past.join(&self.clocks[usize::from(thread)])
    }

    /// Adds a past to a thread's clock.
    pub(crate) fn join(&mut self, key: u8, past: &Clock) -> Result<(), AllocError>
        ensures { OnOk result (JoinsAt (time_of self.old.clocks.items) key (time past.now) (time_of self.new.clocks.items)) }
    {
        self.clocks[usize::from(key)].join(past)
    }
}
