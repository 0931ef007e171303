//! The accesses of a memory of pages: what `GuestMemory` asks, once for all of them.
#![tactic(auto, using(crate::proofs::PageAccesses::page_accesses))]

ghost use Rattle.std.specs.Prelude.{◌≡◌, ◌%◌, ◌↔◌, ℕ, IsTrue, IsFalse, IfSome, Some, None, Ok, option_map};
ghost use Rattle.guest_memory.specs.Memory.{loaded, fetched, stored};
ghost use Rattle.guest_memory.specs.Stores.{Stores, IsOutOfMemory};
ghost use Rattle.paged_memory.specs.Number.{width_of, value_of};
ghost use Rattle.paged_memory.specs.PageMap.{memory_of_pages, permitted_page, IsWritable};

use crate::number::Number;
use crate::page::Page;
use crate::page_memory::{PageMemory, PageStore};
use guest_memory::layout::PAGE_SIZE;
use guest_memory::{AccessFault, StoreFault};

/// The page of an address, where it can be read.
#[inline(always)]
#[tactic(auto, unfolding(crate::specs::PageMap::permitted_page))]
fn readable<M: PageMemory>(memory: &M, address: u32) -> Option<&Page>
    ensures { option_map (λ page. page.now) result ≡ permitted_page (λ perm. perm.read) (M.pages memory.now) address }
{
    let page = memory.find_page(address / PAGE_SIZE)?;
    if page.perm().read { Some(page) } else { None }
}

/// The page of an address, where one look finds it and it can be read.
#[inline(always)]
#[tactic(auto, unfolding(crate::specs::PageMap::permitted_page))]
fn near_readable<M: PageMemory>(memory: &M, address: u32) -> Option<&Page>
    ensures { IfSome result (λ page. permitted_page (λ perm. perm.read) (M.pages memory.now) address ≡ Some page.now) }
{
    match memory.near_page(address / PAGE_SIZE) {
        Some(page) if page.perm().read => Some(page),
        _ => None,
    }
}

/// The page of an address, where it can be executed.
#[inline(always)]
#[tactic(auto, unfolding(crate::specs::PageMap::permitted_page))]
fn executable<M: PageMemory>(memory: &M, address: u32) -> Option<&Page>
    ensures { option_map (λ page. page.now) result ≡ permitted_page (λ perm. perm.execute) (M.pages memory.now) address }
{
    let page = memory.find_page(address / PAGE_SIZE)?;
    if page.perm().execute {
        Some(page)
    } else {
        None
    }
}

/// Whether the page of an address can be written.
#[inline(always)]
#[tactic(auto, unfolding(crate::specs::PageMap::permitted_page))]
fn is_writable<M: PageMemory>(memory: &M, address: u32) -> bool
    ensures yes { IsTrue result → IsWritable (M.pages memory.now) address }
    ensures no { IsFalse result → permitted_page (λ perm. perm.write) (M.pages memory.now) address ≡ None }
{
    match memory.find_page(address / PAGE_SIZE) {
        Some(page) => page.perm().write,
        None => false,
    }
}

/// The byte at an address, as `GuestMemory` says.
#[inline(always)]
pub fn load8<M: PageMemory>(memory: &M, address: u32) -> Result<u8, AccessFault>
    ensures { result ≡ loaded 1 (memory_of_pages (M.pages memory.now)) address }
{
    match readable(memory, address) {
        Some(page) => Ok(page.read8((address % PAGE_SIZE) as usize)),
        None => Err(AccessFault::Denied),
    }
}

/// The two bytes from an address on, as `GuestMemory` says.
#[inline(always)]
pub fn load16<M: PageMemory>(memory: &M, address: u32) -> Result<u16, AccessFault>
    ensures { result ≡ loaded 2 (memory_of_pages (M.pages memory.now)) address }
{
    if address % 2 != 0 {
        return Err(AccessFault::Misaligned);
    }
    match readable(memory, address) {
        Some(page) => Ok(page.read16((address % PAGE_SIZE) as usize)),
        None => Err(AccessFault::Denied),
    }
}

/// The four bytes from an address on, as `GuestMemory` says.
#[inline(always)]
pub fn load32<M: PageMemory>(memory: &M, address: u32) -> Result<u32, AccessFault>
    ensures { result ≡ loaded 4 (memory_of_pages (M.pages memory.now)) address }
{
    if address % 4 != 0 {
        return Err(AccessFault::Misaligned);
    }
    match readable(memory, address) {
        Some(page) => Ok(page.read32((address % PAGE_SIZE) as usize)),
        None => Err(AccessFault::Denied),
    }
}

/// The byte at an address, where one look finds its page, as `GuestMemory` says.
#[inline(always)]
pub fn near8<M: PageMemory>(memory: &M, address: u32) -> Option<u8>
    ensures { IfSome result (λ value. loaded 1 (memory_of_pages (M.pages memory.now)) address ≡ Ok value) }
{
    let page = near_readable(memory, address)?;
    Some(page.read8((address % PAGE_SIZE) as usize))
}

/// The two bytes from an address on, where one look finds their page, as `GuestMemory` says.
#[inline(always)]
pub fn near16<M: PageMemory>(memory: &M, address: u32) -> Option<u16>
    ensures { IfSome result (λ value. loaded 2 (memory_of_pages (M.pages memory.now)) address ≡ Ok value) }
{
    match near_readable(memory, address) {
        Some(page) if address % 2 == 0 => Some(page.read16((address % PAGE_SIZE) as usize)),
        _ => None,
    }
}

/// The four bytes from an address on, where one look finds their page, as `GuestMemory` says.
#[inline(always)]
pub fn near32<M: PageMemory>(memory: &M, address: u32) -> Option<u32>
    ensures { IfSome result (λ value. loaded 4 (memory_of_pages (M.pages memory.now)) address ≡ Ok value) }
{
    match near_readable(memory, address) {
        Some(page) if address % 4 == 0 => Some(page.read32((address % PAGE_SIZE) as usize)),
        _ => None,
    }
}

/// The instruction word at an address, as `GuestMemory` says.
#[inline(always)]
pub fn fetch<M: PageMemory>(memory: &M, address: u32) -> Option<u32>
    requires { address % 4 ≡ 0 }
    ensures { result ≡ fetched (memory_of_pages (M.pages memory.now)) address }
{
    let page = executable(memory, address)?;
    Some(page.read32((address % PAGE_SIZE) as usize))
}

/// Stores a number at an address, as `GuestMemory` says of its width.
#[inline(always)]
pub fn store<M: PageStore>(memory: &mut M, address: u32, number: Number) -> Result<(), StoreFault>
    ensures stores { Stores result (memory_of_pages (M.pages memory.old))
        (stored (width_of number) (memory_of_pages (M.pages memory.old)) address (value_of number)) (memory_of_pages (M.pages memory.new)) }
    ensures grows { IsOutOfMemory result → M.takes memory.old address }
    ensures settles { (other : ℕ) → M.takes memory.new other → M.takes memory.old other }
{
    if address % number.width() != 0 {
        return Err(StoreFault::Refused(AccessFault::Misaligned));
    }
    if !is_writable(memory, address) {
        return Err(StoreFault::Refused(AccessFault::Denied));
    }
    match memory.write(address, number) {
        Ok(()) => Ok(()),
        Err(refused) => Err(StoreFault::OutOfMemory(refused)),
    }
}
