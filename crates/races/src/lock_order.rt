//! The recorder of the order of locks: it is told a run's events one after another, and says where threads take locks in both orders.
ghost use Rattle.std.specs.Prelude.{◌≡◌, List, [], ◌∷◌, ◌++◌, IfOk, OnOk, OnErr, true, false};
ghost use Rattle.races.specs.LibraryUsers.{hints_in};
ghost use Rattle.races.specs.LockOrder.{Acquired, AreFaults, KnowsCrossings, acquired_at, acquired_in, waits};
ghost use Rattle.races.specs.LockRecording.{OrderRecords, OrderRecordsMore, OrdersMore};
ghost use Rattle.races.specs.declared.observed_event.ObservedEvent.{ObservedEvent as RunEvent};

use crate::acquisition::{Acquisition, holds};
use crate::called_hint::CalledHint;
use crate::crossings::Crossings;
use crate::hint_kind::HintKind;
use crate::holdings::Holdings;
use crate::library_users::LibraryUsers;
use crate::observed_event::ObservedEvent;
use crate::order_fault::OrderFault;
use std::alloc::{AllocError, Global};

/// Is told the events of a run in the order of its turns, and finds the locks that threads take in both orders.
///
/// It keeps what each thread holds, and for each lock that a thread takes while it holds others the thread, the lock and the held
/// locks, once for each. Such an acquisition is held against all that are kept.
#[derive(Drop)]
pub struct LockOrder {
    alloc: Global,
    /// What is known of the calls of each thread.
    users: LibraryUsers,
    /// The locks that are held.
    holdings: Holdings,
    /// The acquisitions, and the faults found.
    crossings: Crossings,
    /// Whether an event could not be recorded.
    is_broken: bool,
}

impl LockOrder {
    /// A recorder that was told nothing.
    ///
    /// # Errors
    ///
    /// Only out of memory.
    pub fn new(alloc: Global) -> Result<Self, AllocError>
        ensures { IfOk result (λ recorder. OrderRecords recorder []) }
    {
        Ok(LockOrder {
            alloc,
            users: LibraryUsers::new(alloc)?,
            holdings: Holdings::new(alloc),
            crossings: Crossings::new(alloc),
            is_broken: false,
        })
    }

    /// Records an event.
    ///
    /// # Errors
    ///
    /// Out of memory. Then the recorder is broken: each later call fails in the same way.
    pub fn record(&mut self, event: &ObservedEvent) -> Result<(), AllocError>
        ensures recorded { OnOk result
            ((history : List RunEvent) → OrderRecords self.old history → OrderRecords self.new (history ++ event.now ∷ [])) }
        ensures broken { OnErr result (self.new.is_broken ≡ true) }
        ensures stays { OnOk result (self.old.is_broken ≡ false) }
    {
        if self.is_broken {
            return Err(AllocError);
        }
        let recorded = self.tell(event);
        self.is_broken = recorded.is_err();
        recorded
    }

    /// The faults of the events that were told, in the order of their later acquisitions: one for each two locks.
    ///
    /// # Errors
    ///
    /// Out of memory, or the recorder is broken.
    pub fn found(&self) -> Result<Vec<OrderFault>, AllocError>
        ensures faults { IfOk result (λ faults.
            (history : List RunEvent) → OrderRecords self.now history → AreFaults (acquired_in (hints_in history)) faults.items) }
        ensures whole { OnOk result (self.now.is_broken ≡ false) }
    {
        if self.is_broken {
            return Err(AllocError);
        }
        Vec::from_slice(self.alloc, self.crossings.faults())
    }

    /// Takes an event.
    fn tell(&mut self, event: &ObservedEvent) -> Result<(), AllocError>
        ensures { OnOk result (OrderRecordsMore self.old event.now self.new) }
    {
        let called = self.users.called(event);
        self.users.note(event);
        match called {
            Some(hint) => self.take(&hint),
            None => Ok(()),
        }
    }

    /// Takes a hint.
    fn take(&mut self, hint: &CalledHint) -> Result<(), AllocError>
        ensures more { OnOk result (OrdersMore self.old hint.now self.new) }
        ensures users { self.new.users ≡ self.old.users }
    {
        self.acquire(hint)?;
        self.holdings.note(hint)
    }

    /// Takes what a hint adds to the order: a thread takes a lock, by a call that would have waited for it, while it holds others.
    fn acquire(&mut self, hint: &CalledHint) -> Result<(), AllocError>
        ensures crossings { OnOk result ((acquired : List Acquired) → KnowsCrossings self.old.crossings acquired
            → KnowsCrossings self.new.crossings (acquired ++ acquired_at self.old.holdings.held.items hint.now)) }
        ensures users { self.new.users ≡ self.old.users }
        ensures holdings { self.new.holdings ≡ self.old.holdings }
    {
        if !waits(hint.kind) {
            return Ok(());
        }
        let held = self.holdings.locks_of(hint.call.thread)?;
        if held.is_empty() || holds(&held, hint.object) {
            return Ok(());
        }
        self.crossings.add(Acquisition {
            call: hint.call,
            object: hint.object,
            held,
        })
    }
}

/// Whether a lock was taken by a call that would have waited for it.
fn waits(kind: HintKind) -> bool
    ensures { result ≡ waits kind }
{
    matches!(kind, HintKind::Lock | HintKind::Share)
}
