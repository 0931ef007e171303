//! Instructions of a segment that are executed up to a mark.
ghost use Rattle.std.specs.Prelude.{◌≡◌, ◌≤◌, IfOk};
ghost use Rattle.decoded_code.specs.Code.{HasCode};
ghost use Rattle.paged_memory.specs.Snapshot as snapshots;
ghost use Rattle.twins.specs.View.{base_of, cells_of};
ghost use Rattle.marked_memory.specs.Marks.{places_of};
ghost use Rattle.marked_memory.specs.Unmarked.{RunsUnmarked, steps_of};

use crate::marked::Marked;
use crate::marks::Marks;
use crate::part::Part;
use decoded_code::CodeSlice;
use hart::{Hart, SliceEnd, Stop, run_coded_slice};
use std::alloc::AllocError;
use twins::View;

/// What was run up to a mark.
#[derive(Drop)]
pub struct RunToMark {
    /// The memory.
    pub view: View,
    /// How many instructions were executed.
    pub count: u64,
}

/// Executes up to so many instructions, as long as they go on and none of them is marked. It may stop earlier at one that is
/// behind a marked one. If memory is refused, the memory is lost.
pub fn run_to_mark(
    code: CodeSlice<'_>,
    hart: &mut Hart,
    view: View,
    marks: Marks<'_>,
    most: u64,
) -> Result<RunToMark, AllocError>
    requires { HasCode code.start code.entries.now (cells_of view) }
    ensures runs { IfOk result (λ ran.
        RunsUnmarked (places_of marks.entry) hart.old (cells_of view) ran.count hart.new (cells_of ran.view)) }
    ensures base { IfOk result (λ ran. snapshots.cells_of (base_of ran.view) ≡ snapshots.cells_of (base_of view)) }
    ensures within { IfOk result (λ ran. ran.count ≤ most) }
{
    let part = Part::around(code, &marks, hart.pc());
    let mut marked = Marked {
        memory: view,
        marks,
        fence: part.fence,
    };
    let end = run_coded_slice(part.code, hart, &mut marked, most, None, 0, most)?;
    Ok(RunToMark {
        view: marked.memory,
        count: steps_of(end),
    })
}

/// How many instructions were executed before a slice's end. An ecall isn't.
fn steps_of(end: SliceEnd) -> u64
    ensures { result ≡ steps_of end }
{
    match end {
        SliceEnd::Unfinished(count) | SliceEnd::Stopped(Stop::Trap(_) | Stop::Quantum, count) => {
            count
        }
        SliceEnd::Stopped(Stop::Ecall, count) => count.saturating_sub(1),
    }
}
