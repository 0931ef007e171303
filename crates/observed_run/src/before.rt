//! What the events of a turn need of the run before it.
ghost use Rattle.std.specs.Prelude.{◌≡◌, IfOk};
ghost use Rattle.condvar_barrier.specs.Objects.{holds_mutex};
ghost use Rattle.token.specs.RunInTurn.{point_of};
ghost use Rattle.observed_run.specs.Calls as spec;

use abi::limits::OBJECTS;
use condvar_barrier::Objects;
use std::alloc::{AllocError, Global};
use thread_table::{Status, Threads};
use token::{Recorder, Serial};

/// What the events of a turn need of the run before it.
#[derive(Drop)]
pub(crate) struct Before {
    /// The threads that are blocked, ascending.
    pub(crate) blocked: Vec<u32>,
    /// The mutexes that the turn's thread holds, ascending.
    pub(crate) held: Vec<u32>,
}

impl Before {
    /// That of the present turn, which is a thread's.
    pub(crate) fn of<K: Recorder>(
        alloc: Global,
        serial: &Serial<K>,
        thread: u32,
    ) -> Result<Self, AllocError>
        ensures blocked { IfOk result (λ before. before.blocked.items ≡ spec.blocked_in (point_of serial.now).state.threads) }
        ensures held { IfOk result (λ before. before.held.items ≡ spec.held_by (point_of serial.now).state.objects thread) }
    {
        Ok(Before {
            blocked: blocked_in(alloc, serial.threads())?,
            held: held_by(alloc, serial.objects(), thread)?,
        })
    }
}

/// The threads that are blocked, ascending.
#[tactic(auto, unfolding(crate::specs::Calls::passing))]
fn blocked_in(alloc: Global, threads: &Threads) -> Result<Vec<u32>, AllocError>
    ensures { IfOk result (λ blocked. blocked.items ≡ spec.blocked_in threads.now) }
{
    let mut blocked = Vec::new(alloc);
    for thread in 0..threads.len() as u32 {
        if threads.get(thread).status == Status::Blocked {
            blocked.push(thread)?;
        }
    }
    Ok(blocked)
}

/// The mutexes that a thread holds, ascending.
#[tactic(auto, unfolding(crate::specs::Calls::passing))]
fn held_by(alloc: Global, objects: &Objects, thread: u32) -> Result<Vec<u32>, AllocError>
    ensures { IfOk result (λ held. held.items ≡ spec.held_by objects.now thread) }
{
    let mut held = Vec::new(alloc);
    for mutex in 0..OBJECTS {
        if holds_mutex(objects, thread, mutex) {
            held.push(mutex)?;
        }
    }
    Ok(held)
}

/// Whether a thread holds a mutex.
#[tactic(auto, unfolding(condvar_barrier::specs::Objects::holds_mutex))]
fn holds_mutex(objects: &Objects, thread: u32, mutex: u32) -> bool
    ensures { result ≡ holds_mutex objects.now thread mutex }
{
    match objects.holders().get(mutex as usize) {
        Some(Some(holder)) => u32::from(*holder) == thread,
        _ => false,
    }
}
