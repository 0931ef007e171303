//! A group of 128 bytes of a page, kept in place of a page if all changes lie in it.
ghost use Rattle.std.specs.Prelude.{◌≡◌, ◌+◌, ◌≤◌, ◌^◌, ◌++◌, OnOk, length};
ghost use Rattle.guest_memory.specs.Layout.{page_size};
ghost use Rattle.std.specs.Simd.Lanes.{chunk};
ghost use Rattle.commit.specs.Bytes.{merged_bytes, differing_from};

use crate::kernels::{GROUP, PAGE_BYTES, merge, push_differing};
use std::alloc::AllocError;

/// Some bytes of a page side by side, as a thread left them.
#[derive(Drop)]
pub(crate) struct Group {
    /// The offset of the first one.
    at: usize,
    bytes: [u8; GROUP],
    ghost inside: { at + 128 ≤ page_size },
    ghost full: { length bytes ≡ 128 },
}

impl Group {
    /// The bytes of a page from an offset on.
    pub(crate) fn of(page: &[u8; PAGE_BYTES], at: usize) -> Self
        requires { at + GROUP ≤ PAGE_BYTES }
        ensures at { result.at ≡ at }
        ensures bytes { result.bytes ≡ chunk at GROUP page.now }
    {
        let mut bytes = [0; GROUP];
        bytes.copy_from_slice(&page[at..at + GROUP]);
        Group { at, bytes }
    }

    /// The offset of the first byte.
    pub(crate) fn at(&self) -> usize
        ensures at { result ≡ self.now.at }
        ensures inside { result + GROUP ≤ PAGE_BYTES }
    {
        self.at
    }

    /// The same bytes of another page, with these where they differ from those of the page that the thread found.
    pub(crate) fn merged(&self, now: &[u8; PAGE_BYTES], copy: &[u8; PAGE_BYTES]) -> [u8; GROUP]
        ensures { result ≡ merged_bytes (chunk self.now.at GROUP now.now) (chunk self.now.at GROUP copy.now) self.now.bytes }
    {
        let mut merged = [0; GROUP];
        merged.copy_from_slice(&now[self.at..self.at + GROUP]);
        merge(&mut merged, &copy[self.at..self.at + GROUP], &self.bytes);
        merged
    }

    /// Pushes the numbers of its bytes that differ from those of the page that the thread found, where the page's
    /// first byte has this number.
    pub(crate) fn push_differing(
        &self,
        numbers: &mut Vec<u32>,
        first: u32,
        copy: &[u8; PAGE_BYTES],
    ) -> Result<(), AllocError>
        requires { first + PAGE_BYTES ≤ 2 ^ 32 }
        ensures { OnOk result (numbers.new.items
            ≡ numbers.old.items ++ differing_from (first + self.now.at) (chunk self.now.at GROUP copy.now) self.now.bytes) }
    {
        let here = &copy[self.at..self.at + GROUP];
        push_differing(numbers, first + self.at as u32, here, &self.bytes)
    }
}
