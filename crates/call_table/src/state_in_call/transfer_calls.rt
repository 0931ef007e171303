//! The calls that append to the output and take from the input.
#![tactic(auto, unfolding(crate::specs::StateInCall::state_in))]

ghost use Rattle.std.specs.Prelude.{◌≡◌, ◌+◌, ◌-◌, ◌%◌, ◌^◌, ◌<◌, ◌≤◌, ℕ, Bool, IsOk, OnOk, if◌then◌else◌, length, min, slice_index, vec_capacity};
ghost use Rattle.std.specs.Fn.{FnReturnsAt};
ghost use Rattle.abi.specs.Limits as limit;
ghost use Rattle.guest_memory.specs.Layout as layout;
ghost use Rattle.guest_memory.specs.declared.perm.Perm.{Perm as Permission};
ghost use Rattle.paged_memory.specs.Mapping.{is_among, with_bytes};
ghost use Rattle.paged_memory.specs.Snapshot.{cells_of};
ghost use Rattle.call_table.specs.Effects as effects;
ghost use Rattle.call_table.specs.Output.{Appends};
ghost use Rattle.call_table.specs.StateInCall.{state_in, CarriesOut};

use crate::state_in_call::StateInCall;
use crate::state_in_call::replies::{answered, answered_with};
use abi::limits::{OUTPUT, TRANSFER};
use abi::{Code, Reply};
use guest_memory::layout::PAGE_SIZE;
use paged_memory::{Page, Perm, Snapshot};
use std::alloc::AllocError;
use std::sync::Arc;

impl StateInCall {
    #[tactic(auto, using(crate::proofs::Ranges::lengths), unfolding(crate::specs::StateInCall::state_in, crate::specs::Effects::write))]
    pub(super) fn write(&mut self, address: u32, count: u32) -> Result<Reply, AllocError>
        ensures carries { CarriesOut result self.old (effects.write (state_in self.old) address count) self.new }
        ensures succeeds { length self.old.output.items + min count limit.transfer ≤ vec_capacity self.old.output → IsOk result }
    {
        if count > TRANSFER {
            return Ok(answered(Code::BadArgument));
        }
        if !is_permitted_range(&self.memory, address, count, |perm| perm.read) {
            return Ok(answered(Code::BadAddress));
        }
        if self.output.len() + count as usize > OUTPUT as usize {
            return Ok(answered(Code::Limit));
        }
        append(&mut self.output, &self.memory, address, count)?;
        Ok(answered_with(count))
    }

    #[tactic(auto, unfolding(crate::specs::StateInCall::state_in, crate::specs::Effects::read))]
    pub(super) fn read(&mut self, address: u32, count: u32) -> Result<Reply, AllocError>
        ensures { CarriesOut result self.old (effects.read (state_in self.old) address count) self.new }
    {
        if count > TRANSFER {
            return Ok(answered(Code::BadArgument));
        }
        if !is_permitted_range(&self.memory, address, count, |perm| perm.write) {
            return Ok(answered(Code::BadAddress));
        }
        let moved = (count as usize).min(self.input.len() - self.taken);
        let mut memory = self.memory.try_clone()?;
        fill(
            &mut memory,
            address,
            &self.input[self.taken..self.taken + moved],
        )?;
        self.memory = memory;
        self.taken += moved;
        Ok(answered_with(moved as u32))
    }
}

/// Whether a range ends within the addresses, and each of its addresses is mapped and permitted.
fn is_permitted_range<F: Fn(&Perm) -> bool>(
    memory: &Snapshot,
    address: u32,
    count: u32,
    may: F,
) -> bool
    ghost permits: { Permission → Bool }
    requires callable { F.IsAlwaysCallable may }
    requires tells { (perm : Permission) (answer : Bool) → FnReturnsAt F.Fn may perm answer → answer ≡ permits perm }
    ensures { result ≡ effects.is_permitted_range permits (cells_of memory.now) address count }
{
    if u64::from(address) + u64::from(count) > 1 << 32 {
        return false;
    }
    let mut done = 0;
    while done < count {
        let Some(perm) = memory.perm(address + done) else {
            return false;
        };
        if !may(&perm) {
            return false;
        }
        done += run_length(address + done, count - done);
    }
    true
}

/// How many of some addresses from one on lie in its page.
fn run_length(address: u32, count: u32) -> u32
    requires { 0 < count }
    ensures some { 0 < result }
    ensures within { result ≤ count }
    ensures inside { address % layout.page_size + result ≤ layout.page_size }
    ensures exact { result ≡ min count (layout.page_size - address % layout.page_size) }
{
    count.min(PAGE_SIZE - address % PAGE_SIZE)
}

/// Appends the bytes of a range, with 0 where it isn't mapped. Nothing changes when memory runs out.
#[tactic(auto, using(crate::proofs::Ranges::lengths))]
fn append(
    output: &mut Vec<u8>,
    memory: &Snapshot,
    address: u32,
    count: u32,
) -> Result<(), AllocError>
    requires { address + count ≤ 2 ^ 32 }
    ensures appends { Appends result output.old (cells_of memory.now) address count output.new }
    ensures room { length output.new.items ≤ length output.old.items + count }
{
    let before = output.len();
    let mut done = 0;
    while done < count {
        let run = run_length(address + done, count - done);
        if let Err(refused) = append_run(output, memory, address + done, run) {
            output.truncate(before);
            return Err(refused);
        }
        done += run;
    }
    Ok(())
}

/// Appends the bytes of a range of one page, with 0 where it isn't mapped. Nothing changes when memory runs out.
fn append_run(
    output: &mut Vec<u8>,
    memory: &Snapshot,
    address: u32,
    count: u32,
) -> Result<(), AllocError>
    requires { address % layout.page_size + count ≤ layout.page_size }
    ensures appends { Appends result output.old (cells_of memory.now) address count output.new }
    ensures capacity { vec_capacity output.old ≤ vec_capacity output.new }
{
    let start = (address % PAGE_SIZE) as usize;
    match memory.page(address / PAGE_SIZE) {
        Some(page) => output.extend_from_slice(&page.bytes()[start..start + count as usize]),
        None => output.extend_from_slice(&[0; PAGE_SIZE as usize][..count as usize]),
    }
}

/// Stores bytes from an address on, where it is mapped.
fn fill(memory: &mut Snapshot, address: u32, bytes: &[u8]) -> Result<(), AllocError>
    requires room { address + length bytes.now ≤ 2 ^ 32 }
    requires count { length bytes.now ≤ limit.transfer }
    ensures { OnOk result (cells_of memory.new ≡ with_bytes address bytes.now (cells_of memory.old)) }
{
    let count = bytes.len() as u32;
    let mut done = 0;
    while done < count {
        let run = run_length(address + done, count - done);
        let part = &bytes[done as usize..(done + run) as usize];
        fill_run(memory, address + done, part)?;
        done += run;
    }
    Ok(())
}

/// Stores bytes of one page, where it is mapped.
fn fill_run(memory: &mut Snapshot, address: u32, bytes: &[u8]) -> Result<(), AllocError>
    requires { address % layout.page_size + length bytes.now ≤ layout.page_size }
    ensures { OnOk result (cells_of memory.new ≡ with_bytes address bytes.now (cells_of memory.old)) }
{
    let number = address / PAGE_SIZE;
    let Some(page) = memory.page(number) else {
        return Ok(());
    };
    let mut filled = *page.bytes();
    overwrite(&mut filled, (address % PAGE_SIZE) as usize, bytes);
    let filled = Arc::new(memory.allocator(), Page::new(page.perm(), filled))?;
    memory.replace(number, filled)?;
    Ok(())
}

/// Replaces the bytes of a page from a place on.
fn overwrite(page: &mut [u8; PAGE_SIZE as usize], start: usize, bytes: &[u8])
    requires { start + length bytes.now ≤ layout.page_size }
    ensures { (i : ℕ) → i < layout.page_size → slice_index page.new i
        ≡ (if is_among start (length bytes.now) i then slice_index bytes.now (i - start) else slice_index page.old i) }
{
    page[start..start + bytes.len()].copy_from_slice(bytes);
}
