//! The present phase: its first memory and threads, and who is left in its list.
ghost use Rattle.std.specs.Prelude.{◌≡◌, ◌+◌, ◌^◌, ◌<◌, None, All, length};

use paged_memory::Snapshot;
use std::alloc::AllocError;
use thread_table::{ThreadNumbers, Threads};

/// A phase of a run.
#[derive(Drop)]
pub(crate) struct Phase {
    /// Its number, from 1.
    pub(crate) number: u64,
    /// How many turns were done before it.
    pub(crate) first: u64,
    /// The memory that it began with, none as long as that is the present one.
    pub(crate) base: Option<Snapshot>,
    /// The threads that it began with.
    pub(crate) threads: Threads,
    /// The threads that have a turn in it, in the order of their turns.
    pub(crate) list: ThreadNumbers,
    /// How many of the list were given the token.
    pub(crate) given: usize,
}

impl Phase {
    ghost use Rattle.std.specs.Prelude.{IfOk, option_map};
    ghost use Rattle.paged_memory.specs.Snapshot.{cells_of};
    ghost use Rattle.thread_table.specs.Status.{is_ready};
    ghost use Rattle.token.specs.Segments.{jobs_of, row_in};

    /// The same phase. The memory's pages are shared, all else is copied.
    pub(crate) fn try_clone(&self) -> Result<Self, AllocError>
        ensures number { IfOk result (λ copy. copy.number ≡ self.now.number) }
        ensures first { IfOk result (λ copy. copy.first ≡ self.now.first) }
        ensures base { IfOk result (λ copy. option_map cells_of copy.base ≡ option_map cells_of self.now.base) }
        ensures threads { IfOk result (λ copy. copy.threads ≡ self.now.threads) }
        ensures list { IfOk result (λ copy. copy.list.items ≡ self.now.list.items) }
        ensures given { IfOk result (λ copy. copy.given ≡ self.now.given) }
    {
        let base = match &self.base {
            Some(base) => Some(base.try_clone()?),
            None => None,
        };
        let mut threads = Threads::new();
        threads.copy_from(&self.threads);
        let mut list = ThreadNumbers::new();
        let added = list.try_extend_from_slice(self.list.as_slice());
        added.unwrap();
        Ok(Phase {
            number: self.number,
            first: self.first,
            base,
            threads,
            list,
            given: self.given,
        })
    }

    /// The threads of its list that are ready where it begins, in the order of their turns.
    pub(crate) fn jobs(&self) -> ThreadNumbers
        requires { All (λ n. n < length self.now.threads) self.now.list.items }
        ensures { result.items ≡ jobs_of self.now.threads self.now.list.items }
    {
        let mut jobs = ThreadNumbers::new();
        for thread in self.list.as_slice() {
            if self.is_ready(*thread) {
                jobs.push(*thread);
            }
        }
        jobs
    }

    /// Whether a thread is ready where it begins.
    fn is_ready(&self, thread: u32) -> bool
        requires { thread < length self.now.threads }
        ensures { result ≡ is_ready (row_in self.now.threads thread).status }
    {
        self.threads.get(thread).status.is_ready()
    }

    /// The next phase begins, with these threads and this list, after so many turns.
    pub(crate) fn begin(&mut self, turns: u64, threads: &Threads, list: &ThreadNumbers)
        requires { self.old.number + 1 < 2 ^ 64 }
        ensures number { self.new.number ≡ self.old.number + 1 }
        ensures first { self.new.first ≡ turns }
        ensures base { self.new.base ≡ None }
        ensures threads { self.new.threads ≡ threads.now }
        ensures list { self.new.list.items ≡ list.now.items }
        ensures given { self.new.given ≡ 0 }
    {
        self.number += 1;
        self.first = turns;
        self.base = None;
        self.threads.copy_from(threads);
        self.list.clear();
        let added = self.list.try_extend_from_slice(list.as_slice());
        added.unwrap();
        self.given = 0;
    }
}
