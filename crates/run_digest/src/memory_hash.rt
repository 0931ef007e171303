//! The SHA-256 of a memory's mapped pages, ascending.
ghost use Rattle.std.specs.Prelude.{◌≡◌, ℕ, ◌+◌, ◌^◌, ◌<◌, ◌++◌, List, length, IfOk, OnOk};
ghost use Rattle.paged_memory.specs.Snapshot.{cells_of};
ghost use Rattle.run_digest.specs.Memories.{memory_message, page_message, permission_number};
ghost use Rattle.sha2.specs.Hashers.{Holds256};
ghost use Rattle.sha2.specs.Sha256.{sha256};

use guest_memory::Perm;
use guest_memory::layout::PAGE_SIZE;
use paged_memory::{Page, Snapshot};
use sha2::{Digest, Sha256};
use std::alloc::{AllocError, Global};
use text_output::write_hexadecimal;

/// How many pages there are addresses of.
const PAGES: u32 = 1 << 20;

/// The SHA-256 of a memory's mapped pages.
pub(crate) fn memory_hash(alloc: Global, memory: &Snapshot) -> Result<[u8; 32], AllocError>
    ensures { IfOk result (λ hash. hash ≡ sha256 (memory_message (cells_of memory.now))) }
{
    let mut hasher = Sha256::new();
    let mut address = String::new(alloc);
    for number in 0..PAGES {
        match memory.page(number) {
            Some(page) => add_page(&mut hasher, &mut address, number, page)?,
            None => {}
        }
    }
    Ok(hasher.finalize())
}

/// Adds a page.
fn add_page(
    hasher: &mut Sha256,
    address: &mut String,
    number: u32,
    page: &Page,
) -> Result<(), AllocError>
    requires { number < 2 ^ 20 }
    ensures size { length page.now.bytes ≡ 4096 }
    ensures added { OnOk result ((message : List ℕ) →
        Holds256 hasher.old message → Holds256 hasher.new (message ++ page_message number page.now)) }
{
    let permission = permission_byte(page.perm());
    address.clear();
    write_hexadecimal(address, 8, number * PAGE_SIZE)?;
    hasher.update(address.as_str());
    hasher.update(&[permission]);
    hasher.update(page.bytes());
    Ok(())
}

/// The number of what a page permits.
fn permission_byte(perm: Perm) -> u8
    ensures { result ≡ permission_number perm }
{
    let read = if perm.read { 1 } else { 0 };
    let write = if perm.write { 2 } else { 0 };
    let execute = if perm.execute { 4 } else { 0 };
    read + write + execute
}
