//! A row of the report, made from the changes of one page.
ghost use Rattle.std.specs.Prelude.{◌≡◌, IfOk, map};
ghost use Rattle.sharing_report.specs.Sharing.{row_from, phase_mark, spot_mark};

use crate::byte_change::ByteChange;
use crate::counting::{count_contested, count_distinct};
use crate::mark::{Mark, PhaseAddress};
use std::alloc::{AllocError, Global};

/// How a page was shared. Each number is a count.
#[derive(Clone, Copy, Debug, PartialEq, Eq)]
pub struct PageRow {
    /// The address of the page's first byte.
    pub page: u32,
    /// The turns that changed a byte of the page.
    pub turns: u64,
    /// The changed bytes of the page, summed over the turns.
    pub bytes: u64,
    /// The different threads among those turns.
    pub threads: u64,
    /// The phases in which at least two threads each changed a byte of the page.
    pub shared: u64,
    /// The pairs of a phase and an address of the page that at least two threads changed in that phase.
    pub clashes: u64,
}

/// The row of a page whose changed bytes are given.
pub(crate) fn page_row(
    alloc: Global,
    page: u32,
    bytes: &[ByteChange],
) -> Result<PageRow, AllocError>
    ensures { IfOk result (λ row. row ≡ row_from page bytes.now) }
{
    Ok(PageRow {
        page,
        turns: count_distinct(turns_of(alloc, bytes)?),
        bytes: bytes.len() as u64,
        threads: count_distinct(threads_of(alloc, bytes)?),
        shared: count_contested(alloc, phase_marks(alloc, bytes)?)?,
        clashes: count_contested(alloc, spot_marks(alloc, bytes)?)?,
    })
}

/// The turn of each changed byte.
fn turns_of(alloc: Global, bytes: &[ByteChange]) -> Result<Vec<u64>, AllocError>
    ensures { IfOk result (λ turns. turns.items ≡ map (λ byte. byte.turn) bytes.now) }
{
    bytes.iter().map(|byte| byte.turn).collect(alloc)
}

/// The thread of each changed byte.
fn threads_of(alloc: Global, bytes: &[ByteChange]) -> Result<Vec<u32>, AllocError>
    ensures { IfOk result (λ threads. threads.items ≡ map (λ byte. byte.thread) bytes.now) }
{
    bytes.iter().map(|byte| byte.thread).collect(alloc)
}

/// The mark of each changed byte's thread at its phase.
fn phase_marks(alloc: Global, bytes: &[ByteChange]) -> Result<Vec<Mark<u64>>, AllocError>
    ensures { IfOk result (λ marks. marks.items ≡ map phase_mark bytes.now) }
{
    bytes
        .iter()
        .map(|byte| Mark {
            place: byte.phase,
            thread: byte.thread,
        })
        .collect(alloc)
}

/// The mark of each changed byte's thread at its phase and address.
fn spot_marks(alloc: Global, bytes: &[ByteChange]) -> Result<Vec<Mark<PhaseAddress>>, AllocError>
    ensures { IfOk result (λ marks. marks.items ≡ map spot_mark bytes.now) }
{
    bytes
        .iter()
        .map(|byte| Mark {
            place: PhaseAddress {
                phase: byte.phase,
                address: byte.address,
            },
            thread: byte.thread,
        })
        .collect(alloc)
}
