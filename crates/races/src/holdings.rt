//! The locks that are held.
ghost use Rattle.std.specs.Prelude.{◌≡◌, ◌<◌, [], IfOk, IfSome, OnOk, filter, length, not, position};
ghost use Rattle.races.specs.Holding.{excludes, has, held_after, holder_of, lower, locks_of, with_lock, without_lock};

use crate::called_hint::CalledHint;
use crate::held_lock::HeldLock;
use crate::hint_kind::HintKind;
use crate::holding::Holding;
use crate::library_call::LibraryCall;
use std::alloc::{AllocError, Global};

/// The locks that are held, the one that was taken last first.
#[derive(Drop)]
pub(crate) struct Holdings {
    alloc: Global,
    held: Vec<Holding>,
}

impl Holdings {
    /// No lock is held.
    pub(crate) fn new(alloc: Global) -> Self
        ensures { result.held.items ≡ [] }
    {
        Holdings {
            alloc,
            held: Vec::new(alloc),
        }
    }

    /// Takes what a hint says of a lock.
    pub(crate) fn note(&mut self, hint: &CalledHint) -> Result<(), AllocError>
        ensures { OnOk result (self.new.held.items ≡ held_after self.old.held.items hint.now) }
    {
        match hint.kind {
            HintKind::Lock | HintKind::TryLock => self.take(hint, false),
            HintKind::Share | HintKind::TryShare => self.take(hint, true),
            HintKind::Unlock => {
                self.let_go(hint);
                Ok(())
            }
            _ => Ok(()),
        }
    }

    /// A thread takes a lock. Whoever held one that it excludes holds it no longer: an owner that ended, for instance.
    fn take(&mut self, hint: &CalledHint, is_shared: bool) -> Result<(), AllocError>
        ensures { OnOk result (self.new.held.items ≡ with_lock is_shared self.old.held.items hint.now) }
    {
        let lock = HeldLock {
            object: hint.object,
            is_shared,
        };
        self.drop_excluded(lock);
        let own = Holding {
            lock,
            call: hint.call,
        };
        self.held.insert(0, own)?;
        Ok(())
    }

    /// Nobody holds a lock any more that this one excludes.
    fn drop_excluded(&mut self, lock: HeldLock)
        ensures { self.new.held.items ≡ filter (λ one. not (excludes lock one.lock)) self.old.held.items }
    {
        self.held.retain(|one| !lock.excludes(&one.lock));
    }

    /// A thread lets a lock go, the one that it took last if it took the object several times.
    fn let_go(&mut self, hint: &CalledHint)
        ensures { self.new.held.items ≡ without_lock self.old.held.items hint.now }
    {
        if let Some(index) = self.position(hint.call.thread, hint.object) {
            self.held.remove(index);
        }
    }

    /// Where the latest holding of an object by a thread is.
    fn position(&self, thread: u32, object: u32) -> Option<usize>
        ensures at { result ≡ position (has thread object) self.now.held.items }
        ensures bound { IfSome result (λ index. index < length self.now.held.items) }
    {
        self.held.iter().position(|one| one.has(thread, object))
    }

    /// The locks that a thread holds.
    pub(crate) fn locks_of(&self, thread: u32) -> Result<Vec<HeldLock>, AllocError>
        ensures { IfOk result (λ locks. locks.items ≡ locks_of thread self.now.held.items) }
    {
        self.held
            .iter()
            .filter(|one| one.call.thread == thread)
            .map(|one| one.lock)
            .collect(self.alloc)
    }

    /// The call by which the holder of an object took it: of several threads that share it, the first in number.
    pub(crate) fn holder_of(&self, object: u32) -> Option<LibraryCall>
        ensures { result ≡ holder_of self.now.held.items object }
    {
        self.held
            .iter()
            .filter(|one| one.lock.is_of(object))
            .fold(None, |best, one| lower(best, one))
    }
}

/// The holder of the lower number.
fn lower(best: Option<LibraryCall>, one: &Holding) -> Option<LibraryCall>
    ensures { result ≡ lower best one.now }
{
    match best {
        Some(call) if call.thread < one.call.thread => best,
        _ => Some(one.call),
    }
}
