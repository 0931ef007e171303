//! The segment of the present turn: its hart and its view, gone on with by slices.
use crate::access::place_of;
use crate::checkpoint::Begun;
use crate::halt::Halt;
use crate::stops::Stops;
use commit::{Patch, apply};
use decoder::{Instr, decode};
use guest_memory::GuestMemory;
use guest_memory::layout::PAGE_SIZE;
use hart::{Hart, MemoryAccess, SliceEnd, Stop, Trap, run_coded_slice};
use marked_memory::run_to_mark;
use paged_memory::{PageMemory, Snapshot};
use std::alloc::AllocError;
use std::mem;
use token::{SegmentEnd, Work};
use twins::View;

/// A segment that has begun and isn't over.
#[derive(Drop)]
pub(crate) struct PresentSegment {
    pub(crate) work: Work,
    /// The memory that it began with.
    pub(crate) base: Snapshot,
    /// The view's base, kept apart so that its code can be lent.
    pub(crate) under: Snapshot,
    pub(crate) hart: Hart,
    pub(crate) view: View,
    /// The view's base is the memory that it began with. Else it is what a checkpoint had in the middle of the segment.
    pub(crate) is_whole: bool,
    /// How many instructions it has executed.
    pub(crate) done: u64,
    /// The trap of the next instruction, once that was tried.
    pub(crate) trap: Option<Trap>,
}

/// What became of a segment.
#[derive(Drop)]
pub(crate) enum SegmentOutcome {
    /// It has come further, and isn't over.
    Stays,
    /// It halts before the next instruction, or can't execute it.
    Halts(Halt),
    /// The turn ends, with this end of its segment, or with none at a wake.
    Over(Option<SegmentEnd>),
}

impl PresentSegment {
    ghost use Rattle.std.specs.Prelude.{◌≡◌, ◌≢◌, ◌<◌, ◌≤◌, [], None, false, IfOk, IfSome, OnOk, option_map};
    ghost use Rattle.twins.specs.View as views;
    ghost use Rattle.paged_memory.specs.Snapshot.{cells_of};
    ghost use Rattle.paged_memory.specs.Snapshot as snapshots;
    ghost use Rattle.timeline.specs.Calls as calls;
    ghost use Rattle.timeline.specs.Halts as halts;
    ghost use Rattle.timeline.specs.Halts.{IsInstr};
    ghost use Rattle.timeline.specs.Quiet.{IsLooked, IsSkippedStill};
    ghost use Rattle.timeline.specs.Underway.{CanExecute, CanSkip, EndsHere, IsFurther, IsOver, IsRoom, IsProgress, IsUnderway, IsStopped, IsTrapped, Stands, halt_in, is_at_call, origin_of};

    /// A segment that has executed nothing.
    pub(crate) fn begin(work: Work, base: &Snapshot) -> Result<Self, AllocError>
        requires { IfSome work.segment.quantum (λ q. 0 < q) }
        ensures underway { IfOk result IsUnderway }
        ensures origin { IfOk result (λ underway. origin_of underway ≡ record { work = work; copy = cells_of base.now }) }
        ensures done { IfOk result (λ underway. underway.done ≡ 0) }
        ensures trap { IfOk result (λ underway. underway.trap ≡ None) }
    {
        Ok(PresentSegment {
            work,
            base: base.try_clone()?,
            under: base.try_clone()?,
            hart: work.segment.hart,
            view: View::open(base.try_clone()?),
            is_whole: true,
            done: 0,
            trap: None,
        })
    }

    /// Where it stands, to be kept.
    pub(crate) fn begun(&self) -> Result<Begun, AllocError>
        requires { IsUnderway self.now }
        ensures stands { IfOk result (λ begun. Stands (origin_of self.now) begun.done begun.trap begun.hart (cells_of begun.memory)) }
        ensures done { IfOk result (λ begun. begun.done ≡ self.now.done) }
    {
        let mut memory = self.under.try_clone()?;
        let patch = Patch::of(self.under.allocator(), &self.view)?;
        apply(&mut memory, &patch)?;
        Ok(Begun {
            hart: self.hart,
            done: self.done,
            trap: self.trap,
            memory,
        })
    }

    /// Stands where a segment stood that was kept.
    pub(crate) fn resume(&mut self, begun: &Begun) -> Result<(), AllocError>
        requires { Stands (origin_of self.old) begun.now.done begun.now.trap begun.now.hart (cells_of begun.now.memory) }
        ensures underway { OnOk result (IsUnderway self.new) }
        ensures origin { OnOk result (origin_of self.new ≡ origin_of self.old) }
        ensures done { OnOk result (self.new.done ≡ begun.now.done) }
    {
        let under = begun.memory.try_clone()?;
        let view = View::open(begun.memory.try_clone()?);
        self.under = under;
        self.view = view;
        self.is_whole = false;
        self.hart = begun.hart;
        self.done = begun.done;
        self.trap = begun.trap;
        Ok(())
    }

    /// Goes on up to so many of its instructions. If memory is refused it can't be gone on with.
    pub(crate) fn go_on(&mut self, until: u64) -> Result<SegmentOutcome, AllocError>
        requires { CanExecute self.old until }
        ensures { IfOk result (λ progress. IsProgress self.old until progress self.new) }
    {
        let end = run_coded_slice(
            self.under.code(),
            &mut self.hart,
            &mut self.view,
            self.work.segment.left,
            self.work.segment.quantum,
            self.done,
            until,
        )?;
        match end {
            SliceEnd::Unfinished(done) => {
                self.done = done;
                Ok(SegmentOutcome::Stays)
            }
            SliceEnd::Stopped(stop, count) => self.stopped(stop, count),
        }
    }

    /// The segment stopped so after so many instructions.
    fn stopped(&mut self, stop: Stop, count: u64) -> Result<SegmentOutcome, AllocError>
        requires { EndsHere self.old stop count }
        ensures { IfOk result (λ progress. IsStopped self.old stop count progress self.new) }
    {
        match stop {
            Stop::Trap(trap) => Ok(self.trapped(trap, count)),
            Stop::Ecall | Stop::Quantum => self.over(stop, count),
        }
    }

    /// It has found that it traps after so many instructions.
    fn trapped(&mut self, trap: Trap, count: u64) -> SegmentOutcome
        ensures { IsTrapped self.old trap count result self.new }
    {
        let moved = self.done < count;
        self.done = count;
        self.trap = Some(trap);
        if moved {
            SegmentOutcome::Stays
        } else {
            SegmentOutcome::Halts(Halt::End)
        }
    }

    /// The segment's end. Where the view doesn't go back to the segment's start it is executed again from there.
    fn over(&self, stop: Stop, count: u64) -> Result<SegmentOutcome, AllocError>
        requires { EndsHere self.now stop count }
        ensures { IfOk result (IsOver (origin_of self.now) stop count) }
    {
        if !self.is_whole {
            let end = self.work.segment.run(&self.base)?;
            return Ok(SegmentOutcome::Over(Some(end)));
        }
        let end = SegmentEnd::of(self.hart, stop, count, &self.view)?;
        Ok(SegmentOutcome::Over(Some(end)))
    }

    /// Goes on up to so many of its instructions, or to the first one before which it halts. It stays before a call if there
    /// are watches, since what a call does is looked at from outside. If memory is refused it can't be gone on with.
    pub(crate) fn go_looking(
        &mut self,
        stops: &Stops<'_>,
        until: u64,
    ) -> Result<SegmentOutcome, AllocError>
        requires { CanExecute self.old until }
        ensures further { IfOk result (λ progress. IsFurther self.old until progress self.new) }
        ensures looked { IfOk result (λ progress. IsLooked (halts.wanted_by stops.now) self.old progress self.new) }
    {
        let from = self.done;
        while self.done < until && self.trap.is_none() {
            if let Some(halt) = self.halt_here(stops) {
                return Ok(SegmentOutcome::Halts(halt));
            }
            if from < self.done && self.has_watched_call(stops) {
                return Ok(SegmentOutcome::Stays);
            }
            match self.go_on(self.done + 1)? {
                SegmentOutcome::Stays => {}
                other => return Ok(other),
            }
            self.skip_others(stops, until)?;
        }
        Ok(SegmentOutcome::Stays)
    }

    /// Whether a call comes next and something is watched.
    fn has_watched_call(&self, stops: &Stops<'_>) -> bool
        requires { IsUnderway self.now }
        ensures { result ≡ false → stops.now.watches.now ≢ [] → is_at_call self.now ≡ false }
    {
        !stops.watches.is_empty() && self.is_at_call()
    }

    /// Does as [`PresentSegment::skip`] if none of its instructions is waited for.
    fn skip_others(&mut self, stops: &Stops<'_>, until: u64) -> Result<(), AllocError>
        requires { CanSkip self.old until }
        ensures { OnOk result (IsSkippedStill (halts.wanted_by stops.now) self.old until self.new) }
    {
        if stops.waits_for(self.work.thread) {
            return Ok(());
        }
        self.skip(stops, until)
    }

    /// Goes on up to so many of its instructions, as long as it halts at none of them for what it is. If memory is refused
    /// it can't be gone on with.
    pub(crate) fn skip(&mut self, stops: &Stops<'_>, until: u64) -> Result<(), AllocError>
        requires can { CanSkip self.old until }
        requires elsewhere { halts.waits stops.now.arrival self.old.work.thread ≡ false }
        ensures { OnOk result (IsSkippedStill (halts.wanted_by stops.now) self.old until self.new) }
    {
        if self.trap.is_some() {
            return Ok(());
        }
        let most = self.room(until);
        let spare = View::open(self.under.try_clone()?);
        let view = mem::replace(&mut self.view, spare);
        let code = self.under.code();
        let ran = run_to_mark(code, &mut self.hart, view, stops.marks(), most)?;
        self.view = ran.view;
        self.done += ran.count;
        Ok(())
    }

    /// How many instructions it can execute, of so many in all, before its bound or its quantum ends it.
    fn room(&self, until: u64) -> u64
        requires { IsUnderway self.now }
        ensures { IsRoom self.now until result }
    {
        let left = self.work.segment.left.min(until);
        let last = match self.work.segment.quantum {
            Some(quantum) => left.min(quantum.saturating_sub(1)),
            None => left,
        };
        last.saturating_sub(self.done)
    }

    /// Why it halts before the next instruction, none if it doesn't.
    pub(crate) fn halt_here(&self, stops: &Stops<'_>) -> Option<Halt>
        requires { IsUnderway self.now }
        ensures { result ≡ halt_in (halts.wanted_by stops.now) self.now }
    {
        match self.position_halt(stops) {
            Some(halt) => Some(halt),
            None => self.step_halt(stops),
        }
    }

    /// Why it halts at a trap that is known: for what the instruction is, or at the end.
    pub(crate) fn halt_at_trap(&self, stops: &Stops<'_>) -> Halt
        requires { IsUnderway self.now }
        ensures { result ≡ halts.told_or_end (halt_in (halts.wanted_by stops.now) self.now) }
    {
        match self.halt_here(stops) {
            Some(halt) => halt,
            None => Halt::End,
        }
    }

    /// Why it halts at the next instruction for what that is.
    #[tactic(auto, unfolding(crate::specs::Halts::address_halt))]
    pub(crate) fn position_halt(&self, stops: &Stops<'_>) -> Option<Halt>
        ensures { result ≡ halts.address_halt (halts.wanted_by stops.now) self.now.work.thread self.now.hart.pc }
    {
        let pc = self.hart.pc();
        if stops.breakpoints.contains(&pc) {
            return Some(Halt::Breakpoint);
        }
        match &stops.arrival {
            Some(arrival) if arrival.is_at(self.work.thread, pc) => Some(Halt::Arrived),
            _ => None,
        }
    }

    /// Why it halts at the next instruction for what that loads or stores.
    pub(crate) fn step_halt(&self, stops: &Stops<'_>) -> Option<Halt>
        requires { IsUnderway self.now }
        ensures { result ≡ halts.access_event stops.now.watches.now (halts.next_access self.now.hart (views.cells_of self.now.view)) }
    {
        match stops.watches {
            [] => None,
            watches => {
                let access = self.access()?;
                Some(Halt::Watched(place_of(&access, watches)?))
            }
        }
    }

    /// Whether an ecall comes next that the bound allows.
    pub(crate) fn is_at_call(&self) -> bool
        requires { IsUnderway self.now }
        ensures { result ≡ is_at_call self.now }
    {
        self.done < self.work.segment.left && self.is_at_ecall()
    }

    /// Whether the next instruction is an ecall.
    #[tactic(auto, using(crate::proofs::Instructions::call_is))]
    fn is_at_ecall(&self) -> bool
        requires { IsUnderway self.now }
        ensures { result ≡ halts.is_call (halts.next_instr self.now.hart (views.cells_of self.now.view)) }
    {
        matches!(self.next_instruction(), Some(Instr::Ecall))
    }

    /// Whether the thread and a memory have the same byte at an address, or none.
    pub(crate) fn agrees_with(&self, memory: &Snapshot, address: u32) -> bool
        ensures { result ≡ calls.agree (views.cells_of self.now.view) (snapshots.cells_of memory.now) address }
    {
        match (self.byte(address), memory.byte(address)) {
            (Some(one), Some(other)) => one == other,
            (None, None) => true,
            _ => false,
        }
    }

    /// The load or store that the next instruction makes.
    #[tactic(auto, using(crate::proofs::Instructions::access_is))]
    fn access(&self) -> Option<MemoryAccess>
        requires { IsUnderway self.now }
        ensures { result ≡ halts.next_access self.now.hart (views.cells_of self.now.view) }
    {
        let instr = self.next_instruction()?;
        MemoryAccess::of(&self.hart, &instr)
    }

    /// The next instruction, none if there is none that can be executed. EBREAK may stand for none.
    fn next_instruction(&self) -> Option<Instr>
        requires { IsUnderway self.now }
        ensures { IsInstr result (halts.next_instr self.now.hart (views.cells_of self.now.view)) }
    {
        let pc = self.hart.pc();
        match self.under.code().at(pc) {
            Some(entry) => Some(*entry),
            None => decode(self.view.fetch(pc)?),
        }
    }

    /// The byte that the thread sees at an address, none if it isn't mapped.
    #[tactic(auto, unfolding(paged_memory::specs::PageMap::memory_of_pages))]
    pub(crate) fn byte(&self, address: u32) -> Option<u8>
        ensures { result ≡ option_map (λ cell. cell.byte) (views.cells_of self.now.view address) }
    {
        let page = self.view.find_page(address / PAGE_SIZE)?;
        Some(page.read8((address % PAGE_SIZE) as usize))
    }
}
