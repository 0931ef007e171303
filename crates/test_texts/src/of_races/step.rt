//! What is looked at of an event: what it takes over and what it passes on.
use crate::of_races::atomic::atomic_accesses;
use crate::of_races::regions::is_inside;
use crate::of_races::told::Told;
use races::{Access, HintEvent, HintKind};
use std::alloc::{AllocError, Global};

/// What order passes through.
#[derive(Clone, Copy, PartialEq, Eq)]
enum Through {
    /// What a thread does later.
    Thread,
    /// The joins of a thread.
    Joins,
    /// The later acquisitions of a mutex.
    Mutex,
    /// The later acquisitions of an object.
    Object,
    /// The later acquire fences of a thread.
    Seen,
    /// The later relaxed stores of a thread.
    Fenced,
}

/// A way of order: through what, and the number of the thread, the mutex or the object.
#[derive(Clone, Copy, PartialEq, Eq)]
pub struct Way {
    through: Through,
    number: u32,
}

/// What is looked at of an event.
#[derive(Clone, Copy)]
pub struct Step {
    /// What it takes over.
    pub from: [Option<Way>; 2],
    /// What it passes its past on to.
    pub to: [Option<Way>; 2],
    /// The access that it is, if it is one.
    pub access: Option<Access>,
    /// The bytes that begin a new life, by address and length.
    pub fresh: Option<(u32, u32)>,
}

/// The steps of a history.
pub fn steps_of(alloc: Global, history: &[Told]) -> Result<Vec<Step>, AllocError> {
    let mut steps = Vec::new(alloc);
    for (index, told) in history.iter().enumerate() {
        let (before, _) = history.split_at(index);
        if let Told::Hint(hint) = told {
            push_hint(alloc, &mut steps, before, hint)?;
        } else if !is_hidden(before, *told) && !is_silent(*told) {
            steps.push(step_of(before, *told))?;
        }
    }
    Ok(steps)
}

/// Whether an event only says something of later hints.
fn is_silent(told: Told) -> bool {
    matches!(told, Told::Caller(_, _) | Told::Length(_, _))
}

/// Appends the steps of a hint that names an object, after some events.
fn push_hint(
    alloc: Global,
    steps: &mut Vec<Step>,
    before: &[Told],
    hint: &HintEvent,
) -> Result<(), AllocError> {
    let own = Some(thread_way(hint.site.thread));
    let object = way_through(Through::Object, hint.object);
    let seen = way_through(Through::Seen, u32::from(hint.site.thread));
    let fenced = way_through(Through::Fenced, u32::from(hint.site.thread));
    match hint.kind {
        HintKind::AtomicLoad | HintKind::AtomicStore => {
            for access in &atomic_accesses(alloc, before, hint)? {
                steps.push(accessing(*access))?;
            }
        }
        HintKind::SeenAcquire => steps.push(passing([object, None], [seen, None]))?,
        HintKind::RelaxedRelease => steps.push(passing([fenced, None], [object, None]))?,
        HintKind::FenceRelease => steps.push(passing([own, None], [own, fenced]))?,
        HintKind::FenceAcquire => steps.push(passing([own, seen], [own, None]))?,
        _ => {}
    }
    Ok(())
}

/// A step that takes over what comes by some ways, and passes it on to others.
fn passing(from: [Option<Way>; 2], to: [Option<Way>; 2]) -> Step {
    Step {
        from,
        to,
        access: None,
        fresh: None,
    }
}

/// The step of an atomic access.
fn accessing(access: Access) -> Step {
    let own = Some(thread_way(access.site.thread));
    Step {
        from: [own, None],
        to: [own, None],
        access: Some(access),
        fresh: None,
    }
}

/// Whether a library region hides an event after others: its thread is in one, or it lets a thread go that waited in one.
fn is_hidden(before: &[Told], told: Told) -> bool {
    match told {
        Told::Access(access) => is_inside(before, access.site.thread),
        Told::End(thread)
        | Told::Join(thread, _)
        | Told::Unlock(thread, _)
        | Told::Lock(thread, _) => is_inside(before, thread),
        Told::LetGo(thread, waiter) => is_inside(before, thread) || is_inside(before, waiter),
        _ => false,
    }
}

/// The step of an event after others that no library region hides.
fn step_of(before: &[Told], told: Told) -> Step {
    let (from, to) = match told {
        Told::Round(first, second) => {
            let passing = [outside(before, first), outside(before, second)];
            (passing, passing)
        }
        _ => {
            let own = own_way(told);
            ([own, taken_over(told)], [own, passed_on(told)])
        }
    };
    let access = match told {
        Told::Access(access) => Some(access),
        _ => None,
    };
    let fresh = match told {
        Told::Fresh(address, length) => Some((address, length)),
        _ => None,
    };
    Step {
        from,
        to,
        access,
        fresh,
    }
}

/// The way of a thread of a round, unless it is in a library region.
fn outside(before: &[Told], thread: u8) -> Option<Way> {
    if is_inside(before, thread) {
        None
    } else {
        Some(thread_way(thread))
    }
}

/// The way of the thread of an event that has one.
fn own_way(told: Told) -> Option<Way> {
    match told {
        Told::Access(access) => Some(thread_way(access.site.thread)),
        Told::Create(thread, _)
        | Told::End(thread)
        | Told::Join(thread, _)
        | Told::Unlock(thread, _)
        | Told::Lock(thread, _)
        | Told::LetGo(thread, _)
        | Told::Acquire(thread, _)
        | Told::Release(thread, _)
        | Told::Enter(thread)
        | Told::Leave(thread) => Some(thread_way(thread)),
        Told::Round(_, _)
        | Told::Fresh(_, _)
        | Told::Caller(_, _)
        | Told::Length(_, _)
        | Told::Hint(_) => None,
    }
}

/// What a call or a hint takes over, beside its own thread.
fn taken_over(told: Told) -> Option<Way> {
    let (through, number) = match told {
        Told::Join(_, ended) => (Through::Joins, u32::from(ended)),
        Told::Lock(_, mutex) => (Through::Mutex, mutex),
        Told::Acquire(_, object) => (Through::Object, object),
        _ => return None,
    };
    Some(Way { through, number })
}

/// What a call or a hint passes on to, beside its own thread.
fn passed_on(told: Told) -> Option<Way> {
    let (through, number) = match told {
        Told::Create(_, created) => (Through::Thread, u32::from(created)),
        Told::End(thread) => (Through::Joins, u32::from(thread)),
        Told::Unlock(_, mutex) => (Through::Mutex, mutex),
        Told::LetGo(_, waiter) => (Through::Thread, u32::from(waiter)),
        Told::Release(_, object) => (Through::Object, object),
        _ => return None,
    };
    Some(Way { through, number })
}

/// A way of order through something of this number.
fn way_through(through: Through, number: u32) -> Option<Way> {
    Some(Way { through, number })
}

/// What a thread does later.
fn thread_way(thread: u8) -> Way {
    Way {
        through: Through::Thread,
        number: u32::from(thread),
    }
}
