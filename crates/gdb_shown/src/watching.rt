//! What gdb saw last of the watched ranges, and which watch event was told last.
ghost use Rattle.std.specs.Prelude.{◌≡◌, ◌&&◌};
ghost use Rattle.gdb_shown.specs.Watching.{is_kept, other_of, range_of};

use crate::memory::bytes_seen;
use crate::seen_range::{SeenRange, is_known, seen_of};
use std::alloc::{AllocError, Global};
use std::mem;
use timeline::{Timeline, Watch, WatchKind};

/// How many bytes a range has at most of which it is kept what gdb saw last.
const SEEN_LIMIT: u32 = 4096;

/// A watch event that was told.
#[derive(Clone, Copy, Debug, PartialEq, Eq)]
pub struct WatchHit {
    /// The thread that makes the step.
    pub thread: u32,
    /// The address that was told: the first of the range.
    pub address: u32,
    /// Whether the thread's next step doesn't move, so that gdb sees the range as it is here.
    pub is_still: bool,
}

/// What gdb saw last of the watched ranges, and which watch event was told last.
#[derive(Drop)]
pub struct Watching {
    alloc: Global,
    seen: Vec<SeenRange>,
    /// The event that was told last, if nothing moved since.
    told: Option<WatchHit>,
    /// The ranges of the same step that are told next.
    others: Vec<WatchHit>,
}

impl Watching {
    ghost use Rattle.std.specs.Prelude.{◌++◌, ◌∷◌, [], None, Some, IfOk, MatchOption, OnErr, OnOk, map};
    ghost use Rattle.timeline.specs.Present.{moment_of};
    ghost use Rattle.gdb_shown.specs.Watching.{IsBlank, after_step, armed, event_of, is_anew, others_of, ranges_of, seen_by, seen_told, seen_with, tells};

    /// Nothing was seen.
    pub fn new(alloc: Global) -> Self
        ensures { IsBlank result }
    {
        Watching {
            alloc,
            seen: Vec::new(alloc),
            told: None,
            others: Vec::new(alloc),
        }
    }

    /// Forgets what was seen and told.
    pub fn forget(&mut self)
        ensures { IsBlank self.new }
    {
        self.seen.clear();
        self.forget_told();
    }

    /// Forgets what was told and is to be told.
    pub fn forget_told(&mut self)
        ensures others { self.new.others.items ≡ [] }
        ensures told { self.new ≡ record self.old { told = None; others = self.new.others } }
    {
        self.told = None;
        self.others.clear();
    }

    /// The run moves away from the event that was told last.
    pub fn move_on(&mut self)
        ensures { self.new ≡ record self.old { told = None } }
    {
        self.told = None;
    }

    /// The event that was told last, if nothing moved since.
    pub fn told(&self) -> Option<WatchHit>
        ensures { result ≡ self.now.told }
    {
        self.told
    }

    /// The next range of the same step that is to be told, which is told by this.
    pub fn tell_other(&mut self) -> Option<WatchHit>
        ensures other { MatchOption result (self.old.others.items ≡ [])
            (λ other. self.old.others.items ≡ self.new.others.items ++ other ∷ []) }
        ensures told { self.new ≡ record self.old { told = tells result self.old.told; others = self.new.others } }
    {
        let other = self.others.pop()?;
        self.told = Some(other);
        Some(other)
    }

    /// Notes what gdb sees of the watched ranges where it resumes: a new range as the thread sees it that is meant, and of
    /// one that this thread sees otherwise than gdb saw it last nothing is known.
    pub fn arm(
        &mut self,
        timeline: &Timeline,
        watches: &[Watch],
        thread: u32,
    ) -> Result<(), AllocError>
        ensures armed { OnOk result
            (ranges_of self.new ≡ armed (moment_of timeline.now.present) self.old.seen.items watches.now thread) }
        ensures rest { self.new ≡ record self.old { seen = self.new.seen } }
    {
        let before = mem::replace(&mut self.seen, Vec::new(self.alloc));
        let mut seen = Vec::new(self.alloc);
        for watch in watches {
            if is_kept(watch) {
                let bytes = bytes_seen(self.alloc, timeline, thread, watch.start, watch.len)?;
                seen.push(seen_of(before.as_slice(), watch, bytes))?;
            }
        }
        self.seen = seen;
        Ok(())
    }

    /// Tells an event of a watch, of a step of this thread.
    pub fn tell(&mut self, timeline: &Timeline, watch: Watch, thread: u32) -> Result<(), AllocError>
        ensures told { OnOk result (self.new.told ≡ Some (event_of (moment_of timeline.now.present) self.old.seen.items watch thread)) }
        ensures seen { OnOk result (ranges_of self.new ≡ seen_told (moment_of timeline.now.present) watch thread (ranges_of self.old)) }
        ensures others { OnOk result (self.new.others.items ≡ []) }
        ensures refused { OnErr result (self.new ≡ record self.old { seen = self.new.seen }) }
        ensures rest { self.new ≡ record self.old { seen = self.new.seen; told = self.new.told; others = self.new.others } }
    {
        let is_still = self.sees_anew(timeline, &watch, thread)?;
        self.others.clear();
        self.told = Some(WatchHit {
            thread,
            address: watch.start,
            is_still,
        });
        Ok(())
    }

    /// Whether a thread sees the range of a watch otherwise than gdb saw it last; gdb sees it so from now on.
    fn sees_anew(
        &mut self,
        timeline: &Timeline,
        watch: &Watch,
        thread: u32,
    ) -> Result<bool, AllocError>
        ensures anew { IfOk result (λ anew. anew ≡ is_anew (moment_of timeline.now.present) self.old.seen.items watch.now thread) }
        ensures seen { OnOk result (ranges_of self.new ≡ seen_told (moment_of timeline.now.present) watch.now thread (ranges_of self.old)) }
        ensures rest { self.new ≡ record self.old { seen = self.new.seen } }
    {
        if !is_kept(watch) {
            return Ok(false);
        }
        let bytes = bytes_seen(self.alloc, timeline, thread, watch.start, watch.len)?;
        let is_anew = !is_known(
            self.seen.as_slice(),
            watch.start,
            watch.len,
            bytes.as_slice(),
        );
        self.see(timeline, watch, thread)?;
        Ok(is_anew)
    }

    /// gdb sees the range of a watch as a thread sees it.
    fn see(&mut self, timeline: &Timeline, watch: &Watch, thread: u32) -> Result<(), AllocError>
        ensures seen { OnOk result
            (ranges_of self.new ≡ map (seen_with (moment_of timeline.now.present) watch.now thread) (ranges_of self.old)) }
        ensures rest { self.new ≡ record self.old { seen = self.new.seen } }
    {
        let alloc = self.alloc;
        for seen in self.seen.iter_mut() {
            seen.see_watch(alloc, timeline, watch, thread)?;
        }
        Ok(())
    }

    /// The ranges of which it is kept what gdb saw last, as a thread sees them.
    pub fn look(&self, timeline: &Timeline, thread: u32) -> Result<Vec<SeenRange>, AllocError>
        ensures { IfOk result
            (λ seen. map range_of seen.items ≡ map (seen_by (moment_of timeline.now.present) thread) (ranges_of self.now)) }
    {
        let mut looks = Vec::new(self.alloc);
        for seen in &self.seen {
            looks.push(seen.seen_by(self.alloc, timeline, thread)?)?;
        }
        Ok(looks)
    }

    /// After a step over a watch event that was told, by what its thread saw before: gdb sees the ranges that have the told
    /// address, and the others that the step changed are told next.
    pub fn see_step(
        &mut self,
        timeline: &Timeline,
        told: WatchHit,
        before: &[SeenRange],
    ) -> Result<(), AllocError>
        ensures seen { OnOk result
            (ranges_of self.new ≡ map (after_step (moment_of timeline.now.present) told before.now) (ranges_of self.old)) }
        ensures others { OnOk result
            (self.new.others.items ≡ others_of (moment_of timeline.now.present) told before.now (ranges_of self.old)) }
        ensures rest { self.new ≡ record self.old { seen = self.new.seen; others = self.new.others } }
    {
        let alloc = self.alloc;
        let mut others = Vec::new(alloc);
        for seen in self.seen.iter_mut() {
            if seen.see_step(alloc, timeline, told, before)? {
                others.push(other_of(told.thread, seen))?;
            }
        }
        self.others = others;
        Ok(())
    }
}

/// Whether it is kept what gdb sees of the range of a watch.
fn is_kept(watch: &Watch) -> bool
    ensures { result ≡ is_kept watch.now }
{
    watch.kind == WatchKind::Store && watch.len <= SEEN_LIMIT
}

/// What is told of a range that a step of this thread changed.
fn other_of(thread: u32, seen: &SeenRange) -> WatchHit
    ensures { result ≡ other_of thread (range_of seen.now) }
{
    WatchHit {
        thread,
        address: seen.start,
        is_still: true,
    }
}
