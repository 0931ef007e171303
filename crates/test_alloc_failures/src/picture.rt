//! A picture of a memory, by which it is compared before and after a refusal.
ghost use Rattle.std.specs.Prelude.{◌+◌, ◌^◌, ◌≤◌};

use crate::answer::{Answer, digest_of};
use crate::failed::Failed;
use guest_memory::layout::{HEAP_START, PAGE_SIZE, STACK_END, STACK_START};
use paged_memory::{Page, PageMemory};
use std::alloc::{AllocError, Global};

/// The first pages of the image window, and of the heap, that are looked at.
const IMAGE_LOOKED_AT: u32 = 64;

const HEAP_LOOKED_AT: u32 = 160;

/// What a page takes in a picture.
const PAGE_TAKES: usize = 4097;

/// For how many mapped pages there is room in a picture from the start.
const ROOM: usize = 112;

/// A copy of a memory's pages: for each page number that is looked at what the page permits, and its bytes.
#[derive(Drop)]
pub struct Picture {
    bytes: Vec<u8>,
    /// How many pages are mapped.
    mapped: u64,
}

impl Picture {
    /// The picture of a memory.
    pub fn of<M: PageMemory>(alloc: Global, memory: &M) -> Result<Self, AllocError> {
        let mut picture = Picture {
            bytes: Vec::with_capacity(alloc, ROOM * PAGE_TAKES)?,
            mapped: 0,
        };
        picture.push_memory(memory)?;
        Ok(picture)
    }

    /// Adds a memory.
    pub fn push_memory<M: PageMemory>(&mut self, memory: &M) -> Result<(), AllocError> {
        self.push_pages(memory, 0, IMAGE_LOOKED_AT)?;
        self.push_pages(memory, HEAP_START / PAGE_SIZE, HEAP_LOOKED_AT)?;
        self.push_pages(
            memory,
            STACK_START / PAGE_SIZE,
            (STACK_END - STACK_START) / PAGE_SIZE,
        )
    }

    /// Adds bytes.
    pub fn push_bytes(&mut self, bytes: &[u8]) -> Result<(), AllocError> {
        self.bytes.extend_from_slice(bytes)
    }

    /// Whether a memory looks the same.
    pub fn is_of<M: PageMemory>(&self, alloc: Global, memory: &M) -> Result<bool, AllocError> {
        let other = Picture::of(alloc, memory)?;
        Ok(self.is_same(&other))
    }

    /// Whether it looks the same as another.
    pub fn is_same(&self, other: &Picture) -> bool {
        self.bytes.as_slice() == other.bytes.as_slice()
    }

    /// A digest of it.
    pub fn digest(&self) -> u64 {
        digest_of(&self.bytes)
    }

    /// Adds pages from the first on.
    fn push_pages<M: PageMemory>(
        &mut self,
        memory: &M,
        first: u32,
        count: u32,
    ) -> Result<(), AllocError>
        requires { first + count ≤ 2 ^ 20 }
    {
        for done in 0..count {
            self.push_page(memory.find_page(first + done))?;
        }
        Ok(())
    }

    /// Adds a page, or that none is mapped.
    fn push_page(&mut self, page: Option<&Page>) -> Result<(), AllocError> {
        let Some(page) = page else {
            return self.push_bytes(&[0]);
        };
        let perm = page.perm();
        let flags = 8 + u8::from(perm.read) * 4 + u8::from(perm.write) * 2 + u8::from(perm.execute);
        self.mapped = self.mapped.wrapping_add(1);
        self.push_bytes(&[flags])?;
        self.push_bytes(page.bytes())
    }
}

/// Whether two memories look the same.
pub fn look_same<M: PageMemory>(alloc: Global, one: &M, other: &M) -> Result<bool, AllocError> {
    let picture = Picture::of(alloc, one)?;
    picture.is_of(alloc, other)
}

/// An answer with a memory: how many of its pages are mapped, a value, and the digest of its picture.
pub fn answer_with<M: PageMemory>(alloc: Global, memory: &M, value: u32) -> Result<Answer, Failed> {
    let picture = Picture::of(alloc, memory)?;
    Ok(Answer {
        count: picture.mapped,
        value,
        digest: picture.digest(),
    })
}
