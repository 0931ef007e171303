//! The changes of one page in a tree: a page put or taken away, bytes written.
ghost use Rattle.std.specs.Prelude.{◌≡◌, ◌+◌, ◌≤◌, length, option_map, OnOk, OnErr};
ghost use Rattle.std.specs.Arc.{arc_value};
ghost use Rattle.guest_memory.specs.Layout.{page_size};
ghost use Rattle.paged_memory.specs.Number.{width_of, value_of};
ghost use Rattle.paged_memory.specs.PageMap.{with_number_in, with_part_in};

use crate::level::Change;
use crate::number::Number;
use crate::page::Page;
use std::alloc::{AllocError, Global};
use std::sync::Arc;

/// Replaces the page by another one, or by none.
#[derive(Drop)]
pub(crate) struct Put {
    pub(crate) page: Option<Arc<Page>>,
}

impl Change for Put {
    ghost makes = { λ put _. option_map arc_value put.page };

    fn make(self, _alloc: Global, page: &mut Option<Arc<Page>>) -> Result<(), AllocError> {
        *page = self.page;
        Ok(())
    }
}

/// Writes a number at an offset of the page.
#[derive(Drop)]
pub(crate) struct Write {
    pub(crate) offset: usize,
    pub(crate) number: Number,
    ghost inside: { offset + width_of number ≤ page_size },
}

impl Change for Write {
    ghost makes = { λ write. option_map (with_number_in (width_of write.number) write.offset (value_of write.number)) };

    fn make(self, _alloc: Global, page: &mut Option<Arc<Page>>) -> Result<(), AllocError> {
        match page {
            Some(shared) => {
                Arc::make_mut(shared)?.write(self.offset, self.number);
                Ok(())
            }
            None => Ok(()),
        }
    }
}

/// Writes bytes from an offset of the page on.
#[derive(Drop)]
pub(crate) struct WritePart<'a> {
    pub(crate) offset: usize,
    pub(crate) part: &'a [u8],
    ghost inside: { offset + length part.now ≤ page_size },
}

impl<'a> Change for WritePart<'a> {
    ghost makes = { λ write. option_map (with_part_in write.offset write.part.now) };

    fn make(self, alloc: Global, page: &mut Option<Arc<Page>>) -> Result<(), AllocError> {
        let Some(shared) = page else {
            return Ok(());
        };
        match Arc::get_mut(shared) {
            Some(own) => {
                own.write_part(self.offset, self.part);
                Ok(())
            }
            None => self.write_copy(alloc, shared),
        }
    }
}

impl WritePart<'_> {
    /// Writes into a copy of a page that others share, which takes its place. It is moved fewer times than by
    /// `Arc::make_mut`.
    #[inline(never)]
    fn write_copy(&self, alloc: Global, shared: &mut Arc<Page>) -> Result<(), AllocError>
        ensures made { OnOk result (arc_value shared.new ≡ with_part_in self.now.offset self.now.part.now (arc_value shared.old)) }
        ensures kept { OnErr result (shared.new ≡ shared.old) }
    {
        let mut page = **shared;
        page.write_part(self.offset, self.part);
        *shared = Arc::new(alloc, page)?;
        Ok(())
    }
}
