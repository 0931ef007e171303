//! The recorder of misuse: it is told a run's events one after another, and says which objects were misused.
ghost use Rattle.std.specs.Prelude.{◌≡◌, List, [], ◌∷◌, ◌++◌, IfOk, OnOk, OnErr, true, false, fold};
ghost use Rattle.std.specs.List.{list_any};
ghost use Rattle.races.specs.LibraryUsers.{hints_in};
ghost use Rattle.races.specs.Firsts.{with_new};
ghost use Rattle.races.specs.Holding.{held_after};
ghost use Rattle.races.specs.MisuseRecording.{MisuseRecords, MisuseRecordsMore};
ghost use Rattle.races.specs.Misuses.{is_misuse, is_same_misuse, misuse_of, misuses_at, misuses_in};
ghost use Rattle.races.specs.declared.observed_event.ObservedEvent.{ObservedEvent as RunEvent};

use crate::called_hint::CalledHint;
use crate::holdings::Holdings;
use crate::library_users::LibraryUsers;
use crate::misuse::Misuse;
use crate::observed_event::ObservedEvent;
use std::alloc::{AllocError, Global};

/// Is told the events of a run in the order of its turns, and keeps what a library told of misuse.
///
/// It keeps what each thread holds, and each misuse once: the first of its kind and object at a place in the program. A misuse that
/// is told takes time in proportion to the number of those that are kept.
#[derive(Drop)]
pub struct MisuseRecorder {
    alloc: Global,
    /// What is known of the calls of each thread.
    users: LibraryUsers,
    /// The locks that are held.
    holdings: Holdings,
    /// The misuses.
    misuses: Vec<Misuse>,
    /// Whether an event could not be recorded.
    is_broken: bool,
}

impl MisuseRecorder {
    /// A recorder that was told nothing.
    ///
    /// # Errors
    ///
    /// Only out of memory.
    pub fn new(alloc: Global) -> Result<Self, AllocError>
        ensures { IfOk result (λ recorder. MisuseRecords recorder []) }
    {
        Ok(MisuseRecorder {
            alloc,
            users: LibraryUsers::new(alloc)?,
            holdings: Holdings::new(alloc),
            misuses: Vec::new(alloc),
            is_broken: false,
        })
    }

    /// Records an event.
    ///
    /// # Errors
    ///
    /// Out of memory. Then the recorder is broken: each later call fails in the same way.
    pub fn record(&mut self, event: &ObservedEvent) -> Result<(), AllocError>
        ensures recorded { OnOk result
            ((history : List RunEvent) → MisuseRecords self.old history → MisuseRecords self.new (history ++ event.now ∷ [])) }
        ensures broken { OnErr result (self.new.is_broken ≡ true) }
        ensures stays { OnOk result (self.old.is_broken ≡ false) }
    {
        if self.is_broken {
            return Err(AllocError);
        }
        let recorded = self.tell(event);
        self.is_broken = recorded.is_err();
        recorded
    }

    /// The misuses that were told: of each kind, object and place in the program the first, in the order of the events.
    ///
    /// # Errors
    ///
    /// Out of memory, or the recorder is broken.
    pub fn found(&self) -> Result<Vec<Misuse>, AllocError>
        ensures misuses { IfOk result (λ misuses.
            (history : List RunEvent) → MisuseRecords self.now history → misuses.items ≡ misuses_in (hints_in history)) }
        ensures whole { OnOk result (self.now.is_broken ≡ false) }
    {
        if self.is_broken {
            return Err(AllocError);
        }
        Vec::from_slice(self.alloc, &self.misuses)
    }

    /// Takes an event.
    fn tell(&mut self, event: &ObservedEvent) -> Result<(), AllocError>
        ensures { OnOk result (MisuseRecordsMore self.old event.now self.new) }
    {
        let called = self.users.called(event);
        self.users.note(event);
        match called {
            Some(hint) => self.take(&hint),
            None => Ok(()),
        }
    }

    /// Takes a hint.
    fn take(&mut self, hint: &CalledHint) -> Result<(), AllocError>
        ensures misuses { OnOk result (self.new.misuses.items
            ≡ fold (with_new is_same_misuse) self.old.misuses.items (misuses_at self.old.holdings.held.items hint.now)) }
        ensures held { OnOk result (self.new.holdings.held.items ≡ held_after self.old.holdings.held.items hint.now) }
        ensures users { self.new.users ≡ self.old.users }
    {
        if hint.kind.number() >= FIRST_MISUSE {
            self.keep(hint)?;
        }
        self.holdings.note(hint)
    }

    /// Keeps a misuse, if none of its kind and object at its place is kept.
    fn keep(&mut self, hint: &CalledHint) -> Result<(), AllocError>
        ensures misuses { OnOk result (self.new.misuses.items
            ≡ with_new is_same_misuse self.old.misuses.items (misuse_of self.old.holdings.held.items hint.now)) }
        ensures holdings { self.new.holdings ≡ self.old.holdings }
        ensures users { self.new.users ≡ self.old.users }
    {
        let misuse = Misuse {
            call: hint.call,
            kind: hint.kind,
            object: hint.object,
            holder: self.holdings.holder_of(hint.object),
        };
        if !is_kept(&self.misuses, &misuse) {
            self.misuses.push(misuse)?;
        }
        Ok(())
    }
}

/// Whether a misuse of the same kind and object at the same place is kept.
fn is_kept(misuses: &[Misuse], misuse: &Misuse) -> bool
    ensures { result ≡ list_any (is_same_misuse misuse.now) misuses.now }
{
    misuses.iter().any(|one| misuse.is_same(one))
}

/// The number of the first kind of misuse.
const FIRST_MISUSE: u32 = 32;
