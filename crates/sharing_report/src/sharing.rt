//! The report of a list of changes.
ghost use Rattle.std.specs.Prelude.{IfOk};
ghost use Rattle.sharing_report.specs.Sharing.{IsSharing};

use crate::page_row::{PageRow, page_row};
use crate::pages::{bytes_by_page, changed_pages, page_bytes};
use std::alloc::{AllocError, Global};
use token::TurnChange;

/// The sharing report of turns: a row for each page with a byte that a turn changed, ascending.
pub fn report(alloc: Global, changes: &[TurnChange]) -> Result<Vec<PageRow>, AllocError>
    ensures { IfOk result (λ rows. IsSharing changes.now rows.items) }
{
    let bytes = bytes_by_page(alloc, changes)?;
    let pages = changed_pages(alloc, &bytes)?;
    let mut rows = Vec::new(alloc);
    for page in &pages {
        rows.push(page_row(alloc, *page, page_bytes(&bytes, *page))?)?;
    }
    Ok(rows)
}
