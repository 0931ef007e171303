//! The states of all changed pages, brought up to date by a turn.
ghost use Rattle.std.specs.Prelude.{◌≡◌, ◌+◌, ◌-◌, ◌*◌, ◌/◌, ◌^◌, ◌<◌, ◌≤◌, List, ◌++◌, IsSome, OnOk, length, slice_index, take};
ghost use Rattle.std.specs.Ordering.{nat_cmp};
ghost use Rattle.std.specs.BTreeMap.{get};
ghost use Rattle.sharing_report.specs.ByteChanges.{bytes_by};
ghost use Rattle.sharing_report.specs.Pages.{AreKnown, AreOfPage, AreUpTo, HasPages, Stay, StayKnown};
ghost use Rattle.sharing_report.specs.declared.byte_change.ByteChange.{ByteChange as ChangedByte};

use crate::page_state::PageState;
use guest_memory::layout::PAGE_SIZE;
use std::alloc::{AllocError, Global};
use std::collections::BTreeMap;

/// The pages that were ever changed, each by the address of its first byte.
pub(crate) type PageStates = BTreeMap<u32, PageState>;

/// Adds the pages of these addresses that there aren't yet.
pub(crate) fn add_pages(
    alloc: Global,
    pages: &mut PageStates,
    addresses: &[u32],
) -> Result<(), AllocError>
    ensures has { OnOk result (HasPages pages.new addresses.now) }
    ensures known { StayKnown pages.old pages.new }
{
    let mut rest = addresses;
    'pages: while !rest.is_empty() {
        let page = page_of(rest[0]);
        let (_run, later) = rest.split_at(same_page(page, rest));
        add_page(alloc, pages, page)?;
        rest = later;
    }
    Ok(())
}

/// Adds a page where there isn't yet.
fn add_page(alloc: Global, pages: &mut PageStates, page: u32) -> Result<(), AllocError>
    ensures has { OnOk result (IsSome (get nat_cmp pages.new page)) }
    ensures kept { Stay pages.old pages.new }
    ensures known { StayKnown pages.old pages.new }
{
    if !pages.contains_key(&page) {
        let state = PageState::new(alloc)?;
        pages.insert(page, state)?;
    }
    Ok(())
}

/// A turn changed the bytes at these addresses, whose pages there are.
pub(crate) fn note_turn(
    pages: &mut PageStates,
    turn: u64,
    phase: u64,
    thread: u8,
    addresses: &[u32],
)
    ensures { (bytes : List ChangedByte) → AreKnown pages.old bytes → HasPages pages.old addresses.now →
        AreUpTo turn phase bytes → length bytes + length addresses.now < 2 ^ 64 - 1 →
        AreKnown pages.new (bytes ++ bytes_by turn phase thread addresses.now) }
{
    let mut rest = addresses;
    'pages: while !rest.is_empty() {
        let page = page_of(rest[0]);
        let (run, later) = rest.split_at(same_page(page, rest));
        note_page(pages, page, turn, phase, thread, run);
        rest = later;
    }
}

/// A turn changed the bytes at these addresses, which are of this page.
fn note_page(
    pages: &mut PageStates,
    page: u32,
    turn: u64,
    phase: u64,
    thread: u8,
    addresses: &[u32],
)
    requires { AreOfPage page addresses.now }
    ensures kept { Stay pages.old pages.new }
    ensures known { (bytes : List ChangedByte) → AreKnown pages.old bytes → IsSome (get nat_cmp pages.old page) →
        AreUpTo turn phase bytes → length bytes + length addresses.now < 2 ^ 64 - 1 →
        AreKnown pages.new (bytes ++ bytes_by turn phase thread addresses.now) }
{
    if let Some(state) = pages.get_mut(&page) {
        state.note_all(turn, phase, thread, addresses);
    }
}

/// The address of the first byte of an address's page.
fn page_of(address: u32) -> u32
    ensures { result ≡ address / 4096 * 4096 }
{
    address / PAGE_SIZE * PAGE_SIZE
}

/// How many of the first addresses are of this page.
fn same_page(page: u32, addresses: &[u32]) -> usize
    ensures within { result ≤ length addresses.now }
    ensures same { AreOfPage page (take result addresses.now) }
    ensures some { 0 < length addresses.now → slice_index addresses.now 0 / 4096 * 4096 ≡ page → 0 < result }
{
    for (count, address) in addresses.iter().enumerate() {
        if page_of(*address) != page {
            return count;
        }
    }
    addresses.len()
}
