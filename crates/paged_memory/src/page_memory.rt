//! Loads and stores over anything that has pages.
ghost use Rattle.std.specs.Prelude.{◌≡◌, ◌+◌, ◌^◌, ◌%◌, ◌<◌, ◌≤◌, ℕ, Option, Some, IsSome, IfSome, IsErr, OnOk, OnErr, option_map};
ghost use Rattle.guest_memory.specs.Layout.{page_of, page_size};
ghost use Rattle.paged_memory.specs.Number.{width_of, value_of};
ghost use Rattle.paged_memory.specs.Page.{PageValue};
ghost use Rattle.paged_memory.specs.PageMap.{with_number_at};

use crate::number::Number;
use crate::page::Page;
use std::alloc::AllocError;

/// A memory of pages. The loads, fetches and stores of `crate::access` work on each such memory.
pub trait PageMemory {
    /// Which page each page number has, or none where it isn't mapped.
    ghost pages: { Self → ℕ → Option PageValue };

    /// The page of a number, or `None` where it isn't mapped.
    fn find_page(&self, number: u32) -> Option<&Page>
        requires { number < 2 ^ 20 }
        ensures { option_map (λ page. page.now) result ≡ pages self.now number };

    /// The page of a number, where one look finds it. A memory may find none so.
    #[inline(always)]
    fn near_page(&self, number: u32) -> Option<&Page>
        ensures { IfSome result (λ page. pages self.now number ≡ Some page.now) }
    {
        None
    }
}

/// A memory of pages that the stores of `crate::access` work on.
pub trait PageStore: PageMemory {
    /// The addresses where a write may have to take memory of the host. Writes never add to them.
    ghost takes: { Self → ℕ → Type 0 };

    /// Writes a number to an address, whatever the page permits. The address's page is mapped, and it has
    /// all bytes of the number. Nothing changes when memory runs out.
    fn write(&mut self, address: u32, number: Number) -> Result<(), AllocError>
        requires mapped { IsSome (Self.pages self.old (page_of address)) }
        requires inside { address % page_size + width_of number ≤ page_size }
        ensures written { OnOk result (Self.pages self.new ≡
            with_number_at (width_of number) address (value_of number) (Self.pages self.old)) }
        ensures kept { OnErr result (Self.pages self.new ≡ Self.pages self.old) }
        ensures takes { IsErr result → takes self.old address }
        ensures settles { (other : ℕ) → takes self.new other → takes self.old other };
}
