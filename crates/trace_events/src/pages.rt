//! How many pages have some changed bytes.
ghost use Rattle.std.specs.Prelude.{◌≡◌, ◌≤◌, IfOk, if◌then◌else◌, option_map};
ghost use Rattle.token.specs.Change.{addresses_by};
ghost use Rattle.trace_events.specs.Pages.{is_page, page_count};

use commit::{Patch, changed_addresses};
use guest_memory::layout::PAGE_SIZE;
use std::alloc::{AllocError, Global};

/// How many pages have a byte that a patch changes, none where there is no patch.
#[tactic(auto, unfolding(crate::specs::Pages::pages_after))]
pub(crate) fn changed_pages(alloc: Global, patch: Option<&Patch>) -> Result<u64, AllocError>
    ensures { IfOk result (λ pages. pages ≡ page_count (addresses_by (option_map (λ patch. patch.now) patch.entry))) }
{
    match patch {
        Some(patch) => Ok(count_pages(&changed_addresses(alloc, patch)?)),
        None => Ok(0),
    }
}

/// How many pages have one of some ascending addresses.
fn count_pages(addresses: &[u32]) -> u64
    ensures { result ≡ page_count addresses.now }
{
    let mut count = 0;
    let mut last = None;
    for address in addresses {
        let page = address / PAGE_SIZE;
        count += new_pages(last, page);
        last = Some(page);
    }
    count
}

/// 1 for a page that isn't the last one, else 0.
fn new_pages(last: Option<u32>, page: u32) -> u64
    ensures new { result ≡ (if is_page last page then 0 else 1) }
    ensures one { result ≤ 1 }
{
    match last {
        Some(last) if last == page => 0,
        _ => 1,
    }
}
