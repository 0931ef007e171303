//! The threads that gdb has heard of, and those that it means.
ghost use Rattle.std.specs.Prelude.{◌≡◌, max, None, OnOk, []};
ghost use Rattle.gdb_orders.specs.Orders as orders;
ghost use Rattle.gdb_orders.specs.Selections as selections;
ghost use Rattle.gdb_orders.specs.Selections.{HasStopped};

use std::alloc::{AllocError, Global};

/// How many threads are remembered at most for which gdb asked.
const ASKED_LIMIT: usize = 1024;

/// The threads that gdb has heard of, and those that it means.
#[derive(Drop)]
pub struct Selection {
    /// How many threads gdb has heard of.
    pub known: u32,
    /// The thread whose registers and memory are meant.
    pub general: u32,
    /// The thread that moves alone, if one was named.
    pub moving: Option<u32>,
    /// The thread of the last stop.
    pub stopped: u32,
    /// The threads that gdb asked for since the last stop.
    asked: Vec<u32>,
}

impl Selection {
    /// gdb has heard of so many threads, and means this one.
    pub fn new(alloc: Global, known: u32, thread: u32) -> Self
        ensures known { result.known ≡ known }
        ensures general { result.general ≡ thread }
        ensures moving { result.moving ≡ None }
        ensures stopped { result.stopped ≡ thread }
        ensures asked { result.asked.items ≡ [] }
    {
        Selection {
            known,
            general: thread,
            moving: None,
            stopped: thread,
            asked: Vec::new(alloc),
        }
    }

    /// How many threads are listed, if so many are created: those, and the ones that gdb has heard of.
    pub fn listed(&self, created: u32) -> u32
        ensures { result ≡ max self.now.known created }
    {
        self.known.max(created)
    }

    /// gdb has heard of so many threads at least.
    pub fn hear_of(&mut self, count: u32)
        ensures { self.new ≡ record self.old { known = max self.old.known count } }
    {
        self.known = self.known.max(count);
    }

    /// A stop of a thread is told. It is meant from now on.
    pub fn stop_at(&mut self, thread: u32)
        ensures { HasStopped self.old self.new thread }
    {
        self.stopped = thread;
        self.general = thread;
        self.hear_of(thread.saturating_add(1));
        self.asked.clear();
    }

    /// gdb asked for a thread. If it has asked for each listed one once, as for all of them in turn, those are forgotten.
    pub fn ask_for(&mut self, thread: u32, listed: u32) -> Result<(), AllocError>
        ensures asked { OnOk result (self.new.asked.items ≡ selections.asked_with self.old.asked.items thread listed) }
        ensures rest { self.new ≡ record self.old { asked = self.new.asked } }
    {
        self.asked.push(thread)?;
        let count = listed as usize;
        let length = self.asked.len();
        if count <= length && has_each(&self.asked[length - count..], listed) {
            self.asked.truncate(length - count);
        } else if length > ASKED_LIMIT {
            self.asked.clear();
            self.asked.push(thread)?;
        }
        Ok(())
    }

    /// The thread that a step back means: the one that moves, else the last one that gdb asked for, else that of the last
    /// stop.
    pub fn stepped_back(&self) -> u32
        ensures { result ≡ selections.stepped_back self.now.moving self.now.asked.items self.now.stopped }
    {
        match self.moving {
            Some(thread) => thread,
            None => self.asked.last().copied().unwrap_or(self.stopped),
        }
    }
}

/// The number of a listed thread that a packet names, none if it isn't listed. Ids begin with 1.
pub fn thread_of(id: u64, listed: u32) -> Option<u32>
    ensures { result ≡ orders.thread_of id listed }
{
    if 0 < id && id <= u64::from(listed) {
        Some((id - 1) as u32)
    } else {
        None
    }
}

/// Whether the numbers below a count each stand there.
fn has_each(numbers: &[u32], count: u32) -> bool
    ensures { result ≡ selections.has_each numbers.now count }
{
    for number in 0..count {
        if !numbers.contains(&number) {
            return false;
        }
    }
    true
}
