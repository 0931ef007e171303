//! What each thread shows at a position: its registers, and the memory that it sees.
ghost use Rattle.std.specs.Prelude.{◌≡◌, option_map, option_and_then};
ghost use Rattle.hart.specs.HartState.{next_pc, with_pc};
ghost use Rattle.token.specs.Point.{need_at};
ghost use Rattle.timeline.specs.Present.{IsSound, moment_of, point_at};
ghost use Rattle.timeline.specs.Shown as shown;

use crate::present::Present;
use hart::Hart;
use thread_table::{Status, Thread};
use token::Need;

/// The memory that a thread sees.
#[derive(Clone, Copy, Debug, PartialEq, Eq)]
pub enum Sees {
    /// Its own copy with its stores: it is executing its turn.
    Own,
    /// The memory at the phase's start: its turn in the phase is to come.
    PhaseStart,
    /// The shared memory.
    Shared,
}

impl Present {
    /// The row of a thread, none if it isn't created.
    pub(crate) fn row(&self, thread: u32) -> Option<&Thread>
        ensures { option_map (λ row. row.now) result ≡ shown.row_at (point_at self.now) thread }
    {
        let threads = self.serial.threads();
        if (thread as usize) < threads.len() {
            Some(threads.get(thread))
        } else {
            None
        }
    }

    /// What a thread does, none if it isn't created.
    pub(crate) fn status(&self, thread: u32) -> Option<Status>
        ensures { result ≡ option_map (λ row. row.status) (shown.row_at (point_at self.now) thread) }
    {
        let row = self.row(thread)?;
        Some(row.status)
    }

    /// The thread that executes its turn, and its registers.
    #[tactic(auto, unfolding(crate::specs::Shown::own_at, crate::specs::Moment::origin_at, hart::specs::Segment::after))]
    fn own(&self) -> Option<(u32, Hart)>
        requires { IsSound self.now }
        ensures { result ≡ option_map (λ own. (own.thread, own.hart)) (shown.own_at (moment_of self.now)) }
    {
        if let Some(underway) = &self.underway {
            return Some((underway.work.thread, underway.hart));
        }
        match self.serial.need() {
            Need::Segment(work) | Need::Keeper(work) => Some((work.thread, work.segment.hart)),
            Need::Wake { .. } | Need::Ended(_) => None,
        }
    }

    /// Whether a thread executes its turn.
    fn is_own(&self, thread: u32) -> bool
        requires { IsSound self.now }
        ensures { result ≡ shown.is_own (shown.own_at (moment_of self.now)) thread }
    {
        match self.own() {
            Some((owner, _)) => owner == thread,
            None => false,
        }
    }

    /// Which memory a thread sees.
    #[tactic(auto, unfolding(crate::specs::Shown::sees_at))]
    pub(crate) fn sees(&self, thread: u32) -> Sees
        requires { IsSound self.now }
        ensures { result ≡ shown.sees_at (moment_of self.now) thread }
    {
        if self.is_own(thread) {
            Sees::Own
        } else if self.is_to_come(thread) {
            Sees::PhaseStart
        } else {
            Sees::Shared
        }
    }

    /// Whether a thread is ready and its turn in the present phase is to come.
    #[tactic(auto, unfolding(crate::specs::Shown::is_to_come))]
    fn is_to_come(&self, thread: u32) -> bool
        ensures { result ≡ shown.is_to_come (point_at self.now) thread }
    {
        self.status(thread) == Some(Status::Ready)
            && self.is_anothers(thread)
            && self.serial.rest().contains(&thread)
    }

    /// Whether the next turn is another thread's.
    fn is_anothers(&self, thread: u32) -> bool
        ensures { result ≡ shown.is_anothers (need_at (point_at self.now)) thread }
    {
        match self.serial.need() {
            Need::Segment(work) | Need::Keeper(work) => work.thread != thread,
            Need::Wake { thread: woken } => woken != thread,
            Need::Ended(_) => false,
        }
    }

    /// The registers of a thread, none if it isn't created. Those of a thread that waits in a call are shown as after
    /// its ecall.
    #[tactic(auto, unfolding(crate::specs::Shown::hart_shown))]
    pub(crate) fn hart(&self, thread: u32) -> Option<Hart>
        requires { IsSound self.now }
        ensures { result ≡ shown.hart_shown (moment_of self.now) thread }
    {
        let row = self.row(thread)?;
        match self.own() {
            Some((owner, hart)) if owner == thread => Some(hart),
            _ => Some(resting(row)),
        }
    }

    /// The byte that a thread sees at an address, none if it isn't mapped.
    #[tactic(auto, unfolding(crate::specs::Shown::byte_shown))]
    pub(crate) fn byte(&self, thread: u32, address: u32) -> Option<u8>
        requires { IsSound self.now }
        ensures { result ≡ shown.byte_shown (moment_of self.now) thread address }
    {
        match self.sees(thread) {
            Sees::Own => self.own_byte(address),
            Sees::PhaseStart => self.serial.base().byte(address),
            Sees::Shared => self.serial.now().byte(address),
        }
    }

    /// The byte that the thread sees which executes its turn, none if no thread does.
    #[tactic(auto, unfolding(crate::specs::Shown::own_at, crate::specs::Moment::origin_at, hart::specs::Segment::after))]
    fn own_byte(&self, address: u32) -> Option<u8>
        requires { IsSound self.now }
        ensures { result ≡ option_and_then (λ memory. option_map (λ cell. cell.byte) (memory address))
            (shown.memory_by (moment_of self.now) Sees.Own) }
    {
        match &self.underway {
            Some(underway) => underway.byte(address),
            None => match self.serial.need() {
                Need::Segment(_) => self.serial.base().byte(address),
                Need::Keeper(_) => self.serial.now().byte(address),
                Need::Wake { .. } | Need::Ended(_) => None,
            },
        }
    }
}

/// The registers of a thread that isn't executing its turn: if it waits in a call, those after its ecall.
fn resting(row: &Thread) -> Hart
    ensures { result ≡ shown.resting row.now.status row.now.hart }
{
    match row.status {
        Status::Blocked | Status::Woken(_) => after_call(row.hart),
        Status::Ready | Status::Done(_) => row.hart,
    }
}

/// The registers of a thread at an ecall, with pc at the next instruction.
fn after_call(hart: Hart) -> Hart
    ensures { result ≡ with_pc hart (next_pc hart) }
{
    let mut hart = hart;
    hart.set_pc(hart.pc().wrapping_add(4));
    hart
}
