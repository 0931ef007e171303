//! What is kept of a page while a run goes on.
ghost use Rattle.std.specs.Prelude.{◌≡◌, ℕ, ◌+◌, ◌-◌, ◌*◌, ◌/◌, ◌^◌, ◌<◌, ◌≤◌, nat_lt, List, [], ◌∷◌, ◌++◌, All, IfOk, length};

use crate::clashes::Clashes;
use crate::page_row::PageRow;
use crate::shared_phases::SharedPhases;
use crate::thread_set::ThreadSet;
use crate::turn_count::TurnCount;
use guest_memory::layout::PAGE_SIZE;
use std::alloc::{AllocError, Global};

/// How a page was shared so far.
#[derive(Drop)]
pub(crate) struct PageState {
    /// The turns that changed a byte of it.
    turns: TurnCount,
    /// The changed bytes, once for each turn that changed them.
    bytes: u64,
    /// The threads of these turns.
    threads: ThreadSet,
    /// The phases in which at least two threads changed the page.
    shared: SharedPhases,
    /// Where at least two threads met.
    clashes: Clashes,
}

impl PageState {
    ghost use Rattle.sharing_report.specs.ByteChanges.{bytes_by};
    ghost use Rattle.sharing_report.specs.Pages.{AreOfPage, AreUpTo, Knows, row_at};
    ghost use Rattle.sharing_report.specs.declared.byte_change.ByteChange.{ByteChange as ChangedByte};

    /// A page of which no byte was changed.
    pub(crate) fn new(alloc: Global) -> Result<Self, AllocError>
        ensures { IfOk result (λ state. (page : ℕ) → Knows state page []) }
    {
        Ok(PageState {
            turns: TurnCount::new(),
            bytes: 0,
            threads: ThreadSet::new(alloc)?,
            shared: SharedPhases::new(),
            clashes: Clashes::new(alloc)?,
        })
    }

    /// Whether a byte of it was changed.
    pub(crate) fn is_changed(&self) -> bool
        ensures { result ≡ (nat_lt 0 self.now.bytes) }
    {
        self.bytes > 0
    }

    /// The row of a page that was shared so.
    pub(crate) fn row(&self, page: u32) -> PageRow
        ensures { result ≡ row_at page self.now }
    {
        PageRow {
            page,
            turns: self.turns.count(),
            bytes: self.bytes,
            threads: self.threads.count(),
            shared: self.shared.count(),
            clashes: self.clashes.count(),
        }
    }

    /// A turn changed the bytes at these addresses of the page.
    pub(crate) fn note_all(&mut self, turn: u64, phase: u64, thread: u8, addresses: &[u32])
        ensures { (page : ℕ) (bytes : List ChangedByte) → Knows self.old page bytes → AreUpTo turn phase bytes →
            AreOfPage page addresses.now → length bytes + length addresses.now < 2 ^ 64 - 1 →
            Knows self.new page (bytes ++ bytes_by turn phase thread addresses.now) }
    {
        for address in addresses {
            self.note(turn, phase, thread, *address);
        }
    }

    /// A turn changed the byte at an address of the page.
    fn note(&mut self, turn: u64, phase: u64, thread: u8, address: u32)
        ensures { (page : ℕ) (bytes : List ChangedByte) → Knows self.old page bytes → AreUpTo turn phase bytes →
            address / 4096 * 4096 ≡ page → length bytes < 2 ^ 64 - 1 →
            Knows self.new page (bytes ++ record { turn = turn; phase = phase; thread = thread; address = address; page = page } ∷ []) }
    {
        self.turns.add(turn);
        self.bytes = self.bytes.saturating_add(1);
        self.threads.add(thread);
        self.shared.add(phase, thread);
        self.clashes
            .add(phase, (address % PAGE_SIZE) as usize, thread);
    }
}
