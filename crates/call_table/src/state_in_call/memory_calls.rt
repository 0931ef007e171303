//! The calls that map and unmap pages of the heap.
#![tactic(auto, unfolding(crate::specs::StateInCall::state_in))]

ghost use Rattle.std.specs.Prelude.{◌≡◌, ◌+◌, ◌*◌, ◌^◌, ◌≤◌};
ghost use Rattle.abi.specs.Limits as limit;
ghost use Rattle.paged_memory.specs.Snapshot.{cells_of};
ghost use Rattle.call_table.specs.State.{heap_top};
ghost use Rattle.call_table.specs.Effects as effects;
ghost use Rattle.call_table.specs.StateInCall.{state_in, CarriesOut};

use crate::state_in_call::StateInCall;
use crate::state_in_call::replies::{answered, answered_with};
use abi::limits::CALL_PAGES;
use abi::{Code, Reply};
use guest_memory::layout::{HEAP_PAGES, HEAP_START, PAGE_SIZE};
use paged_memory::{Perm, Snapshot};
use std::alloc::AllocError;

impl StateInCall {
    #[tactic(auto, unfolding(crate::specs::StateInCall::state_in, crate::specs::Effects::new_pages))]
    pub(super) fn new_pages(&mut self, count: u32) -> Result<Reply, AllocError>
        ensures { CarriesOut result self.old (effects.new_pages (state_in self.old) count) self.new }
    {
        if !is_page_count(count) {
            return Ok(answered(Code::BadArgument));
        }
        if self.heap_pages + count > HEAP_PAGES {
            return Ok(answered(Code::Limit));
        }
        let top = self.heap_top();
        self.memory
            .map_zero(top / PAGE_SIZE, count, Perm::READ_WRITE)?;
        self.heap_pages += count;
        Ok(answered_with(top))
    }

    #[tactic(auto, unfolding(crate::specs::StateInCall::state_in, crate::specs::Effects::release))]
    pub(super) fn release(&mut self, address: u32, count: u32) -> Result<Reply, AllocError>
        ensures { CarriesOut result self.old (effects.release (state_in self.old) address count) self.new }
    {
        if !is_page_count(count) || address % PAGE_SIZE != 0 {
            return Ok(answered(Code::BadArgument));
        }
        if !self.is_mapped_heap(address, count) {
            return Ok(answered(Code::BadAddress));
        }
        self.memory.unmap(address / PAGE_SIZE, count)?;
        Ok(answered(Code::Done))
    }

    /// The address after the pages that the heap was ever given.
    fn heap_top(&self) -> u32
        ensures { result ≡ heap_top (state_in self.now) }
    {
        HEAP_START + PAGE_SIZE * self.heap_pages
    }

    /// Whether so many pages from an address on are the heap's and mapped.
    fn is_mapped_heap(&self, address: u32, count: u32) -> bool
        requires { count ≤ limit.call_pages }
        ensures { result ≡ effects.is_mapped_heap (state_in self.now) address count }
    {
        if address < HEAP_START {
            return false;
        }
        let end = u64::from(address) + u64::from(PAGE_SIZE * count);
        if end > u64::from(self.heap_top()) {
            return false;
        }
        are_mapped(&self.memory, address / PAGE_SIZE, count)
    }
}

/// Whether a call may name so many pages.
fn is_page_count(count: u32) -> bool
    ensures { result ≡ effects.is_page_count count }
{
    count != 0 && count <= CALL_PAGES
}

/// Whether all of so many pages are mapped.
fn are_mapped(memory: &Snapshot, first: u32, count: u32) -> bool
    requires { first + count ≤ 2 ^ 20 }
    ensures { result ≡ effects.are_mapped (cells_of memory.now) first count }
{
    for done in 0..count {
        if memory.byte(PAGE_SIZE * (first + done)).is_none() {
            return false;
        }
    }
    true
}
