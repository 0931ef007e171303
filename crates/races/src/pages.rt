//! What is kept of the words of all pages.
ghost use Rattle.std.specs.Prelude.{◌≡◌, ℕ, ◌+◌, ◌/◌, ◌%◌, ◌<◌, ◌^◌, [], IfOk, MatchOption, OnOk, vec_len};
ghost use Rattle.races.specs.Linked.{latest_in};
ghost use Rattle.races.specs.Words.{IsRenewed, KeepsAt, latest_at};

use crate::fresh::Fresh;
use crate::latest::Latest;
use crate::page_history::{PAGE_WORDS, PageHistory};
use std::alloc::{AllocError, Global};

/// The pages by their numbers. A run's pages lie far apart, so those of which no word was accessed take next to no room.
#[derive(Drop)]
pub(crate) struct Pages {
    alloc: Global,
    /// None for a page of which no word was accessed, and nothing for those past the last one of which one was.
    pages: Vec<Option<Box<PageHistory>>>,
}

impl Pages {
    /// No page.
    pub(crate) fn new(alloc: Global) -> Self
        ensures { (word : ℕ) → latest_at result.pages.items word ≡ [] }
    {
        Pages {
            alloc,
            pages: Vec::new(alloc),
        }
    }

    /// The page of a word, if there is one.
    pub(crate) fn page(&self, word: u32) -> Option<&PageHistory>
        ensures { MatchOption result (latest_at self.now.pages.items word ≡ [])
            (λ page. latest_in page.now.entries.items (word % 4096) ≡ latest_at self.now.pages.items word) }
    {
        match self.pages.get(page_of(word)) {
            Some(Some(page)) => Some(page),
            _ => None,
        }
    }

    /// Keeps an access of a word.
    pub(crate) fn keep(&mut self, word: u32, own: Latest) -> Result<(), AllocError>
        ensures { OnOk result (KeepsAt (latest_at self.old.pages.items) word own (latest_at self.new.pages.items)) }
    {
        let number = page_of(word);
        self.reach(number)?;
        let place = place_of(word);
        let slot = &mut self.pages[number];
        match slot {
            Some(page) => page.keep(self.alloc, place, own),
            None => {
                *slot = Some(first_page(self.alloc, place, own)?);
                Ok(())
            }
        }
    }

    /// There is a place for the page of a number.
    fn reach(&mut self, page: usize) -> Result<(), AllocError>
        requires { page < 2 ^ 63 }
        ensures inside { OnOk result (page < vec_len self.new.pages) }
        ensures same { OnOk result ((word : ℕ) → latest_at self.new.pages.items word ≡ latest_at self.old.pages.items word) }
    {
        let count = self.pages.len();
        if count > page {
            return Ok(());
        }
        for _more in count..page + 1 {
            self.pages.push(None)?;
        }
        Ok(())
    }

    /// Bytes begin a new life.
    pub(crate) fn renew(&mut self, fresh: Fresh)
        ensures { (word : ℕ) →
            IsRenewed fresh.address fresh.length word (latest_at self.old.pages.items word) (latest_at self.new.pages.items word) }
    {
        let from = page_of(fresh.first_word());
        let end = end_page(fresh.end_word()).min(self.pages.len());
        for number in from..end {
            if let Some(page) = &mut self.pages[number] {
                page.renew((number * PAGE_WORDS) as u32, fresh);
            }
        }
    }
}

/// A page of which one word was accessed, the one at a place.
fn first_page(alloc: Global, place: usize, own: Latest) -> Result<Box<PageHistory>, AllocError>
    requires { place < 4096 }
    ensures { IfOk result (λ page. KeepsAt (λ word. []) place own (latest_in page.value.entries.items)) }
{
    let mut page = PageHistory::new(alloc);
    page.keep(alloc, place, own)?;
    Ok(Box::new(alloc, page)?)
}

/// The number of a word's page.
fn page_of(word: u32) -> usize
    ensures { result ≡ word / 4096 }
{
    word as usize / PAGE_WORDS
}

/// The place of a word on its page.
pub(crate) fn place_of(word: u32) -> usize
    ensures { result ≡ word % 4096 }
{
    word as usize % PAGE_WORDS
}

/// The number of the first page of which a word and those after it have no word.
fn end_page(word: u32) -> usize
    ensures { result ≡ (word + 4095) / 4096 }
{
    (word as usize + PAGE_WORDS - 1) / PAGE_WORDS
}
