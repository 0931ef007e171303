//! What a motion halts for.
ghost use Rattle.std.specs.Prelude.{◌≡◌, Some};
ghost use Rattle.timeline.specs.Halts as halts;

use marked_memory::{Marks, Watch};

/// An instruction that is waited for: a thread's, whose pc isn't in a range.
#[derive(Clone, Copy, Debug, PartialEq, Eq)]
pub struct Arrival {
    /// The thread's number.
    pub thread: u32,
    /// The first address of the range.
    pub start: u32,
    /// The address after the range. The range is empty if this is no more than `start`.
    pub end: u32,
}

impl Arrival {
    /// Whether this thread at this pc is what is waited for.
    pub(crate) fn is_at(&self, thread: u32, pc: u32) -> bool
        ensures { result ≡ halts.arrives (Some self.now) thread pc }
    {
        thread == self.thread && !(self.start <= pc && pc < self.end)
    }
}

/// What a motion halts for. What isn't given never halts.
#[derive(Clone, Copy, Debug)]
pub struct Stops<'a> {
    /// The addresses of breakpoints.
    pub breakpoints: &'a [u32],
    /// The watched ranges.
    pub watches: &'a [Watch],
    /// The instruction that is waited for.
    pub arrival: Option<Arrival>,
    /// The thread that may move alone.
    pub alone: Option<u32>,
    /// How many threads are known. It is looked at on the way forward alone.
    pub known_threads: Option<u32>,
}

impl<'a> Stops<'a> {
    /// Nothing.
    pub fn none() -> Self
        ensures { halts.wanted_by result ≡ halts.nothing }
    {
        Stops {
            breakpoints: &[],
            watches: &[],
            arrival: None,
            alone: None,
            known_threads: None,
        }
    }

    /// Whether it may halt at an instruction of this thread because of what the instruction is.
    pub(crate) fn asks_within(&self, thread: u32) -> bool
        ensures { result ≡ halts.asks (halts.wanted_by self.now) thread }
    {
        self.waits_for(thread) || !self.breakpoints.is_empty() || !self.watches.is_empty()
    }

    /// Whether an instruction of this thread is waited for.
    pub(crate) fn waits_for(&self, thread: u32) -> bool
        ensures { result ≡ halts.waits self.now.arrival thread }
    {
        match &self.arrival {
            Some(arrival) => arrival.thread == thread,
            None => false,
        }
    }

    /// The instructions, loads and stores at which it may halt.
    pub(crate) fn marks(&self) -> Marks<'a>
        ensures breakpoints { result.breakpoints.now ≡ self.now.breakpoints.now }
        ensures watches { result.watches.now ≡ self.now.watches.now }
    {
        Marks {
            breakpoints: self.breakpoints,
            watches: self.watches,
        }
    }

    /// Whether another thread than this one may move alone.
    pub(crate) fn forbids(&self, thread: u32) -> bool
        ensures { result ≡ halts.forbids self.now.alone thread }
    {
        match self.alone {
            Some(alone) => alone != thread,
            None => false,
        }
    }
}
