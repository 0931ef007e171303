//! Where the parts of a guest's memory lie. All other addresses are unmapped.

/// The bytes of a page.
pub const PAGE_SIZE: u32 = 4096;

/// The first address of the image window.
pub const IMAGE_START: u32 = 0x0001_0000;

/// The address after the image window.
pub const IMAGE_END: u32 = 0x2000_0000;

/// How many pages an image may have.
pub const IMAGE_PAGES: u32 = 16_384;

/// The first address of the heap, which grows upward.
pub const HEAP_START: u32 = 0x2000_0000;

/// How many pages a heap may ever be given.
pub const HEAP_PAGES: u32 = 16_384;

/// The first address of thread 0's stack.
pub const STACK_START: u32 = 0x7FFC_0000;

/// The address after thread 0's stack.
pub const STACK_END: u32 = 0x8000_0000;

/// Where thread 0's stack pointer, register x2, stands at the start.
pub const STACK_POINTER: u32 = 0x7FFF_FFF0;
