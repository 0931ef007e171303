//! The changed bytes of each page, ascending.
ghost use Rattle.std.specs.Prelude.{◌≡◌, ℕ, ◌↔◌, Contains, IfOk, IsPermutation, map};
ghost use Rattle.std.specs.List.Sorted.{IsNonDecreasingBy, IsStrictlyIncreasing};
ghost use Rattle.sharing_report.specs.ByteChanges.{bytes_of, bytes_of_page};

use crate::byte_change::{ByteChange, byte_changes};
use std::alloc::{AllocError, Global};
use token::TurnChange;

/// The bytes that turns changed, by ascending pages, those of a page in the order of the turns.
pub(crate) fn bytes_by_page(
    alloc: Global,
    changes: &[TurnChange],
) -> Result<Vec<ByteChange>, AllocError>
    ensures ascending { IfOk result (λ bytes. IsNonDecreasingBy (λ byte. byte.page) bytes.items) }
    ensures permutation { IfOk result (λ bytes. IsPermutation (bytes_of changes.now) bytes.items) }
    ensures same { IfOk result (λ bytes. (page : ℕ) → bytes_of_page page bytes.items ≡ bytes_of_page page (bytes_of changes.now)) }
{
    let mut bytes = byte_changes(alloc, changes)?;
    bytes.sort_by_key(|byte| byte.page)?;
    Ok(bytes)
}

/// The pages with a changed byte, ascending, each by the address of its first byte.
pub(crate) fn changed_pages(alloc: Global, bytes: &[ByteChange]) -> Result<Vec<u32>, AllocError>
    ensures ascending { IfOk result (λ pages. IsStrictlyIncreasing pages.items) }
    ensures exact { IfOk result (λ pages. (page : ℕ) →
        Contains pages.items page ↔ Contains (map (λ byte. byte.page) bytes.now) page) }
{
    let mut pages = pages_of(alloc, bytes)?;
    pages.sort_unstable();
    pages.dedup();
    Ok(pages)
}

/// The page of each changed byte.
fn pages_of(alloc: Global, bytes: &[ByteChange]) -> Result<Vec<u32>, AllocError>
    ensures { IfOk result (λ pages. pages.items ≡ map (λ byte. byte.page) bytes.now) }
{
    bytes.iter().map(|byte| byte.page).collect(alloc)
}

/// The changed bytes of a page, among bytes by ascending pages.
pub(crate) fn page_bytes(bytes: &[ByteChange], page: u32) -> &[ByteChange]
    requires { IsNonDecreasingBy (λ byte. byte.page) bytes.now }
    ensures { result.now ≡ bytes_of_page page bytes.now }
{
    let not_above = &bytes[..bytes.partition_point(|byte| byte.page <= page)];
    &not_above[not_above.partition_point(|byte| byte.page < page)..]
}
