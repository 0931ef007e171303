//! How a thread left a page that it changed: one group of bytes, or the whole page.
ghost use Rattle.std.specs.Prelude.{◌≡◌, IfOk};
ghost use Rattle.commit.specs.Groups.{AreOfOneGroup, IsComparison};
ghost use Rattle.commit.specs.Mine.{IsGroup, bytes_left};

use crate::comparison::Comparison;
use crate::group::Group;
use crate::kernels::count_group;
use paged_memory::Page;
use std::alloc::{AllocError, Global};
use std::sync::Arc;

/// How a thread left a page that it changed.
#[derive(Drop)]
pub(crate) enum Mine {
    /// As it found it, but for some bytes side by side.
    Group(Group),
    /// Like this page.
    Page(Arc<Page>),
}

impl Mine {
    /// How a thread left a page that it found like `copy`. If all bytes that differ are of one group, only that group
    /// is kept.
    pub(crate) fn of(
        alloc: Global,
        copy: &Page,
        mine: &Page,
        found: Comparison,
    ) -> Result<Self, AllocError>
        requires found { IsComparison copy.now.bytes mine.now.bytes found }
        ensures left { IfOk result (λ left. bytes_left copy.now.bytes left ≡ mine.now.bytes) }
        ensures group { IfOk result (λ left. AreOfOneGroup copy.now.bytes mine.now.bytes → IsGroup left) }
    {
        if count_group(copy.bytes(), mine.bytes(), found.last) == found.count {
            return Ok(Mine::Group(Group::of(mine.bytes(), found.last)));
        }
        Ok(Mine::Page(Arc::new(alloc, *mine)?))
    }
}
