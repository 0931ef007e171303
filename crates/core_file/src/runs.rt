//! The runs of a memory's mapped pages.
ghost use Rattle.std.specs.Prelude.{◌≡◌, ◌⊎◌, ◌+◌, ◌<◌, ◌^◌, All, IfOk, OnOk};
ghost use Rattle.paged_memory.specs.Snapshot.{pages_of};
ghost use Rattle.core_file.specs.Runs.{AreRunsBelow, IsAdded, IsLonger, IsPlaced};

use crate::run::Run;
use paged_memory::Snapshot;
use std::alloc::{AllocError, Global};

/// How many pages there are addresses of.
const PAGES: u32 = 1 << 20;

/// The runs of mapped pages, ascending, and how many pages they have.
#[derive(Drop)]
pub(crate) struct Runs {
    /// The runs.
    pub list: Vec<Run>,
    /// How many pages they have together.
    pub pages: u32,
}

impl Runs {
    /// The runs of a memory.
    pub(crate) fn of(alloc: Global, memory: &Snapshot) -> Result<Self, AllocError>
        ensures { IfOk result (λ runs. AreRunsBelow (pages_of memory.now) (2 ^ 20) runs.list.items runs.pages) }
    {
        let mut runs = Runs {
            list: Vec::new(alloc),
            pages: 0,
        };
        for number in 0..PAGES {
            runs.look_at(memory, number)?;
        }
        Ok(runs)
    }

    /// Looks at the next page, and adds it if it is mapped.
    fn look_at(&mut self, memory: &Snapshot, number: u32) -> Result<(), AllocError>
        requires number { number < 2 ^ 20 }
        requires below { AreRunsBelow (pages_of memory.now) number self.old.list.items self.old.pages }
        ensures { OnOk result (AreRunsBelow (pages_of memory.now) (number + 1) self.new.list.items self.new.pages) }
    {
        let Some(page) = memory.page(number) else {
            return Ok(());
        };
        let single = Run {
            first: number,
            count: 1,
            perm: page.perm(),
        };
        lengthen(&mut self.list, single)?;
        self.pages += 1;
        Ok(())
    }
}

/// Adds a run, or makes the last one longer by it if that goes on with it.
fn lengthen(runs: &mut Vec<Run>, next: Run) -> Result<(), AllocError>
    requires { All IsPlaced runs.old.items }
    ensures { OnOk result (IsLonger runs.old.items next runs.new.items ⊎ IsAdded runs.old.items next runs.new.items) }
{
    match runs.pop() {
        Some(last) if last.goes_on_with(&next) => runs.push(last.longer())?,
        Some(last) => {
            runs.push(last)?;
            runs.push(next)?;
        }
        None => runs.push(next)?,
    }
    Ok(())
}
