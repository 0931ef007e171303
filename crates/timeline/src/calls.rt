//! The watch events of calls: what a `read` stores, and what the commit of a turn joins.
ghost use Rattle.std.specs.Prelude.{◌≡◌, ◌+◌, Some, IfOk, option_map};
ghost use Rattle.std.specs.List.{list_any};
ghost use Rattle.ecalls.specs.Request as request;
ghost use Rattle.timeline.specs.Calls as calls;
ghost use Rattle.timeline.specs.Calls.{joint_in};
ghost use Rattle.timeline.specs.Halts as halts;
ghost use Rattle.timeline.specs.Present.{CanStep, IsBegun, IsReady, IsSound, moment_of, point_at, steps_of};

use crate::access::{is_seen, stored};
use crate::checkpoint::Checkpoint;
use crate::halt::Halt;
use crate::present::Present;
use crate::present_segment::PresentSegment;
use crate::stops::Stops;
use abi::Touched;
use ecalls::call_of;
use hart::MemoryAccess;
use marked_memory::Watch;
use std::alloc::AllocError;
use thread_table::Thread;
use token::TurnFault;

/// How many addresses of a range are looked at for a commit that joins.
const JOIN_LIMIT: u32 = 4096;

impl Present {
    /// Why it halts before the call that comes next, none if it doesn't or no call comes next.
    pub(crate) fn call_halt(&self, stops: &Stops<'_>) -> Result<Option<Halt>, TurnFault>
        requires { CanStep self.now }
        ensures { IfOk result (λ halt. halt ≡ calls.call_at stops.now.watches.now (moment_of self.now)) }
    {
        match &self.underway {
            Some(underway) if !stops.watches.is_empty() && underway.is_at_call() => {
                let read = self.read_access(underway, stops.watches)?;
                Ok(self.call_event(underway, &read, stops.watches))
            }
            _ => Ok(None),
        }
    }

    /// The first watch of which the call that comes next is an event.
    fn call_event(
        &self,
        underway: &PresentSegment,
        read: &Option<MemoryAccess>,
        watches: &[Watch],
    ) -> Option<Halt>
        ensures { result ≡ calls.call_event watches.now read.now (joint_in self.now underway.now) }
    {
        for place in 0..watches.len() {
            if self.is_event(underway, read, &watches[place]) {
                return Some(Halt::Watched(place));
            }
        }
        None
    }

    /// Whether a watch looks for what the call that comes next reads, or for what it joins.
    fn is_event(
        &self,
        underway: &PresentSegment,
        read: &Option<MemoryAccess>,
        watch: &Watch,
    ) -> bool
        ensures { result ≡ calls.is_event read.now (joint_in self.now underway.now) watch.now }
    {
        let is_read = match read {
            Some(access) => is_seen(access, watch),
            None => false,
        };
        is_read || self.joins(underway, watch)
    }

    /// What the call that comes next stores, if it is a `read` into a watched range.
    fn read_access(
        &self,
        underway: &PresentSegment,
        watches: &[Watch],
    ) -> Result<Option<MemoryAccess>, TurnFault>
        requires { CanStep self.now }
        ensures { IfOk result
            (λ read. read ≡ calls.read_by watches.now (request.call_of underway.now.hart)
            (calls.count_read (moment_of self.now) underway.now.work.thread)) }
    {
        let (address, length) = match call_of(&underway.hart).touched() {
            Touched::Stores { address, length } => (address, length),
            Touched::Loads { .. } | Touched::Nothing => return Ok(None),
        };
        if !is_looked_for(&stored(address, length), watches) {
            return Ok(None);
        }
        let count = self.count_read(underway.work.thread)?;
        Ok(Some(stored(address, count)))
    }

    /// How many bytes the call of a thread that comes next takes from the input: it is done on a copy of the run, and
    /// answers so in x11 if x10 says that it was done.
    fn count_read(&self, thread: u32) -> Result<u32, TurnFault>
        requires { CanStep self.now }
        ensures { IfOk result (λ count. count ≡ calls.count_read (moment_of self.now) thread) }
    {
        let mut after = turn_of(self)?;
        if after.proceed(&Stops::none(), self.steps() + 1)?.is_some() {
            return Ok(0);
        }
        Ok(count_in(after.row(thread)))
    }

    /// Whether the commit of a thread makes of a range something else than the thread has itself: it has changed a byte of
    /// it, and others changed other bytes of it.
    fn joins(&self, underway: &PresentSegment, watch: &Watch) -> bool
        ensures { result ≡ calls.joins (joint_in self.now underway.now) watch.now }
    {
        watch.looks_for_stores()
            && self.changes_in(underway, watch)
            && self.is_behind_in(underway, watch)
    }

    /// Whether a thread has changed a byte of a range.
    fn changes_in(&self, underway: &PresentSegment, watch: &Watch) -> bool
        ensures { result ≡ calls.any_in (calls.has_changed (joint_in self.now underway.now)) watch.now }
    {
        for offset in 0..watch.len.min(JOIN_LIMIT) {
            if self.has_changed_at(underway, watch.start, offset) {
                return true;
            }
        }
        false
    }

    /// Whether a thread has changed the byte at an offset.
    fn has_changed_at(&self, underway: &PresentSegment, start: u32, offset: u32) -> bool
        ensures { result ≡ calls.holds_at (calls.has_changed (joint_in self.now underway.now)) (start + offset) }
    {
        match start.checked_add(offset) {
            Some(address) => !underway.agrees_with(&underway.base, address),
            None => false,
        }
    }

    /// Whether others have changed a byte of a range that a thread hasn't.
    fn is_behind_in(&self, underway: &PresentSegment, watch: &Watch) -> bool
        ensures { result ≡ calls.any_in (calls.is_behind (joint_in self.now underway.now)) watch.now }
    {
        for offset in 0..watch.len.min(JOIN_LIMIT) {
            if self.is_behind_at(underway, watch.start, offset) {
                return true;
            }
        }
        false
    }

    /// Whether others have changed the byte at an offset that a thread hasn't.
    fn is_behind_at(&self, underway: &PresentSegment, start: u32, offset: u32) -> bool
        ensures { result ≡ calls.holds_at (calls.is_behind (joint_in self.now underway.now)) (start + offset) }
    {
        match start.checked_add(offset) {
            Some(address) => self.is_behind(underway, address),
            None => false,
        }
    }

    /// Whether another thread has changed a byte that this one hasn't.
    fn is_behind(&self, underway: &PresentSegment, address: u32) -> bool
        ensures { result ≡ calls.is_behind (joint_in self.now underway.now) address }
    {
        underway.agrees_with(&underway.base, address)
            && !underway.agrees_with(self.serial.now(), address)
    }
}

/// How many bytes the `read` of a thread has stored.
fn count_in(row: Option<&Thread>) -> u32
    ensures { result ≡ calls.count_in (option_map (λ row. row.now) row.entry) }
{
    match row {
        Some(row) if row.hart.reg(10) == 0 => row.hart.reg(11),
        _ => 0,
    }
}

/// Whether any of some watches looks for an access.
fn is_looked_for(access: &MemoryAccess, watches: &[Watch]) -> bool
    ensures { result ≡ list_any (halts.is_seen access.now) watches.now }
{
    watches.iter().any(|watch| is_seen(access, watch))
}

/// The present turn of a run, as the first one of a run of its own.
fn turn_of(present: &Present) -> Result<Present, AllocError>
    requires { IsReady present.now }
    ensures sound { IfOk result IsSound }
    ensures begun { IfOk result (λ copy. IsBegun (point_at copy) copy.underway) }
    ensures before { IfOk result (λ copy. copy.before ≡ 0) }
    ensures point { IfOk result (λ copy. point_at copy ≡ point_at present.now) }
    ensures steps { IfOk result (λ copy. steps_of copy.underway ≡ steps_of present.now.underway) }
{
    let mut copy = Checkpoint::of(present)?.restored()?;
    copy.before = 0;
    copy.begin()?;
    Ok(copy)
}
