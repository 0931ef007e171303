//! What was seen of a watched range.
ghost use Rattle.std.specs.Prelude.{◌≡◌, IfOk, OnOk, option_map};
ghost use Rattle.timeline.specs.Present.{moment_of};
ghost use Rattle.gdb_shown.specs.Watching.{after_step, agrees, has, is_at, is_bytes, is_known, is_other, known_by, look_at, range_by, range_of, seen_by, seen_with};

use crate::memory::bytes_seen;
use crate::watching::WatchHit;
use std::alloc::{AllocError, Global};
use timeline::{Timeline, Watch};

/// What was seen of a watched range of stores.
#[derive(Drop)]
pub struct SeenRange {
    /// The first address.
    pub(crate) start: u32,
    /// How many addresses.
    pub(crate) len: u32,
    /// The bytes as far as they were mapped, none if it isn't known.
    pub(crate) bytes: Option<Vec<u8>>,
}

impl SeenRange {
    /// Whether an address is in the range.
    fn has(&self, address: u32) -> bool
        ensures { result ≡ has (range_of self.now) address }
    {
        self.start <= address && address - self.start < self.len
    }

    /// Whether it is the range of so many addresses from this one on.
    fn is_at(&self, start: u32, len: u32) -> bool
        ensures { result ≡ is_at (range_of self.now) start len }
    {
        self.start == start && self.len == len
    }

    /// What a thread sees of the range.
    fn look(&self, alloc: Global, timeline: &Timeline, thread: u32) -> Result<Vec<u8>, AllocError>
        ensures { IfOk result (λ bytes. bytes.items ≡ look_at (moment_of timeline.now.present) thread (range_of self.now)) }
    {
        bytes_seen(alloc, timeline, thread, self.start, self.len)
    }

    /// The range as a thread sees it.
    pub(crate) fn seen_by(
        &self,
        alloc: Global,
        timeline: &Timeline,
        thread: u32,
    ) -> Result<SeenRange, AllocError>
        ensures { IfOk result (λ seen. range_of seen ≡ seen_by (moment_of timeline.now.present) thread (range_of self.now)) }
    {
        Ok(SeenRange {
            start: self.start,
            len: self.len,
            bytes: Some(self.look(alloc, timeline, thread)?),
        })
    }

    /// gdb sees the range as a thread sees it, if it is that of a watch.
    pub(crate) fn see_watch(
        &mut self,
        alloc: Global,
        timeline: &Timeline,
        watch: &Watch,
        thread: u32,
    ) -> Result<(), AllocError>
        ensures { OnOk result
            (range_of self.new ≡ seen_with (moment_of timeline.now.present) watch.now thread (range_of self.old)) }
    {
        if self.is_at(watch.start, watch.len) {
            self.bytes = Some(self.look(alloc, timeline, thread)?);
        }
        Ok(())
    }

    /// After a step over an event that was told: gdb sees the range if it has the told address, or the step changed it.
    /// Whether the range is told next.
    pub(crate) fn see_step(
        &mut self,
        alloc: Global,
        timeline: &Timeline,
        told: WatchHit,
        before: &[SeenRange],
    ) -> Result<bool, AllocError>
        ensures range { OnOk result
            (range_of self.new ≡ after_step (moment_of timeline.now.present) told before.now (range_of self.old)) }
        ensures other { IfOk result
            (λ other. other ≡ is_other (moment_of timeline.now.present) told before.now (range_of self.old)) }
    {
        let bytes = self.look(alloc, timeline, told.thread)?;
        let is_changed = !is_known(before, self.start, self.len, bytes.as_slice());
        let is_told = self.has(told.address);
        if is_told || is_changed {
            self.bytes = Some(bytes);
        }
        Ok(!is_told && is_changed)
    }
}

/// What is known of a watched range that a thread sees so, after what was known before.
pub(crate) fn seen_of(before: &[SeenRange], watch: &Watch, bytes: Vec<u8>) -> SeenRange
    ensures { range_of result ≡ range_by before.now watch.now bytes.items }
{
    SeenRange {
        start: watch.start,
        len: watch.len,
        bytes: known_of(before, watch, bytes),
    }
}

/// These bytes, if they are what was known before of the range of a watch.
fn known_of(before: &[SeenRange], watch: &Watch, bytes: Vec<u8>) -> Option<Vec<u8>>
    ensures { option_map (λ bytes. bytes.items) result ≡ known_by before.now watch.now bytes.items }
{
    if is_known(before, watch.start, watch.len, bytes.as_slice()) {
        Some(bytes)
    } else {
        None
    }
}

/// Whether nothing else was seen before of the range of so many addresses from this one on.
pub(crate) fn is_known(before: &[SeenRange], start: u32, len: u32, bytes: &[u8]) -> bool
    ensures { result ≡ is_known before.now start len bytes.now }
{
    before.iter().all(|seen| agrees(seen, start, len, bytes))
}

/// Whether what was seen is of another range than that, or is this.
fn agrees(seen: &SeenRange, start: u32, len: u32, bytes: &[u8]) -> bool
    ensures { result ≡ agrees (range_of seen.now) start len bytes.now }
{
    !seen.is_at(start, len) || is_same(&seen.bytes, bytes)
}

/// Whether these are the bytes that were seen.
fn is_same(seen: &Option<Vec<u8>>, bytes: &[u8]) -> bool
    ensures { result ≡ is_bytes (option_map (λ bytes. bytes.items) seen.now) bytes.now }
{
    match seen {
        Some(seen) => seen.as_slice() == bytes,
        None => false,
    }
}
