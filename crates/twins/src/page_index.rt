//! An index of private pages by number: a short list, or a table of two levels.
ghost use Rattle.std.specs.Prelude.{◌≡◌, ℕ, ◌+◌, ◌^◌, ◌<◌, ◌==◌, IfOk, length, position};
ghost use Rattle.twins.specs.Listed.{AreListed, place_among};
ghost use Rattle.twins.specs.PlaceTable.{place_of};
ghost use Rattle.twins.specs.PrivatePages.{numbers_of};

use crate::place_table::PlaceTable;
use crate::private_page::PrivatePage;
use std::alloc::{AllocError, Global};

/// How many pages are found without a table.
const FEW: usize = 4;

/// Where the page of a number stands in a list. While the pages are few, that is seen by a look at each one's
/// number, and the index is small and takes no memory; else it is one look into a table.
#[derive(Drop)]
pub(crate) struct PageIndex {
    table: Option<Box<PlaceTable>>,
}

impl PageIndex {
    ghost use Rattle.std.specs.Prelude.{◌≡◌, ◌≢◌, ℕ, List, [], ◌∷◌, ◌++◌, ◌+◌, ◌^◌, ◌<◌, None, OnOk, length};
    ghost use Rattle.twins.specs.Places.{AnswersPlace};
    ghost use Rattle.twins.specs.PrivatePages.{place_with, HasRoom};

    /// An index of no page.
    pub(crate) fn new() -> Self
        ensures { result.table ≡ None }
    {
        PageIndex { table: None }
    }

    /// The place of the page of a number.
    #[inline(always)]
    pub(crate) fn place(&self, pages: &[PrivatePage], number: u32) -> Option<usize>
        requires { number < 2 ^ 20 }
        ensures { AnswersPlace result (place_with self.now.table (numbers_of pages.now) number) }
    {
        match &self.table {
            None => place_among(pages, number),
            Some(table) => table.place(number),
        }
    }

    /// Makes room for the page of a number that has none, in a table once the pages are no longer few.
    pub(crate) fn reserve(
        &mut self,
        alloc: Global,
        pages: &[PrivatePage],
        number: u32,
    ) -> Result<(), AllocError>
        requires number { number < 2 ^ 20 }
        requires listed { AreListed (place_with self.old.table (numbers_of pages.now)) (numbers_of pages.now) }
        requires none { place_with self.old.table (numbers_of pages.now) number ≡ 0 }
        ensures same { (other : ℕ) →
            place_with self.new.table (numbers_of pages.now) other ≡ place_with self.old.table (numbers_of pages.now) other }
        ensures room { OnOk result (HasRoom self.new.table number) }
    {
        if self.table.is_none() && pages.len() >= FEW {
            self.table = Some(table_of(alloc, pages)?);
        }
        match &mut self.table {
            Some(table) => table.reserve(number),
            None => Ok(()),
        }
    }

    /// Gives the page of a number that has none a place: the one after the last.
    pub(crate) fn set(&mut self, number: u32, place: usize)
        requires number { number < 2 ^ 20 }
        requires place { place < 2 ^ 20 }
        requires room { HasRoom self.old.table number }
        ensures set { (numbers : List ℕ) → length numbers ≡ place → place_with self.old.table numbers number ≡ 0 →
            place_with self.new.table (numbers ++ number ∷ []) number ≡ place + 1 }
        ensures others { (numbers : List ℕ) (other : ℕ) → other ≢ number →
            place_with self.new.table (numbers ++ number ∷ []) other ≡ place_with self.old.table numbers other }
    {
        if let Some(table) = &mut self.table {
            table.set(number, place);
        }
    }
}

/// The place of the page of a number, by a look at each.
#[inline(always)]
fn place_among(pages: &[PrivatePage], number: u32) -> Option<usize>
    ensures { result ≡ position (λ private. private.number == number) pages.now }
{
    pages.iter().position(|private| private.number == number)
}

/// A table of the places of pages.
#[inline(never)]
fn table_of(alloc: Global, pages: &[PrivatePage]) -> Result<Box<PlaceTable>, AllocError>
    requires listed { AreListed (place_among (numbers_of pages.now)) (numbers_of pages.now) }
    requires count { length pages.now < 2 ^ 20 }
    ensures { IfOk result (λ table. (number : ℕ) → place_of table.value number ≡ place_among (numbers_of pages.now) number) }
{
    let mut table = PlaceTable::new(alloc);
    for (place, private) in pages.iter().enumerate() {
        table.reserve(private.number)?;
        table.set(private.number, place);
    }
    let boxed = Box::new(alloc, table)?;
    Ok(boxed)
}
