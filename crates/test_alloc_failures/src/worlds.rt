//! Runs that go by written events.
use crate::answer::{Answer, digest_of, mixed};
use crate::failed::Failed;
use crate::lent::Lent;
use crate::picture::Picture;
use crate::programs::image_of;
use crate::retry::again;
use crate::runs::BOUND;
use data_guest_programs::schedules::Schedule;
use elf32_reader::Image;
use schedule::Event;
use schedule_core::{EventFault, RefusedEvent, World};
use schedule_text::parse;
use std::alloc::Global;
use token::RunOutcome;
use tracer::trace_text;

/// How many workers there are.
const WORKERS: u32 = 2;

/// How a run goes by the events of a schedule.
pub enum Way {
    /// It is opened alone.
    Opened,
    /// The events happen one after another, each by itself.
    InTurn,
    /// The events happen all at once.
    AtOnce,
}

/// A run that goes by the events of a schedule.
pub fn played(alloc: Global, schedule: &Schedule, way: &Way) -> Result<Answer, Failed> {
    let mut world = world_of(alloc, schedule)?;
    play(alloc, &mut world, schedule, way)
}

/// Has a run go by the events of a schedule, and answers what it came to.
fn play(
    alloc: Global,
    world: &mut World,
    schedule: &Schedule,
    way: &Way,
) -> Result<Answer, Failed> {
    match way {
        Way::Opened => answer_of(alloc, world),
        Way::InTurn => apply_in_turn(alloc, world, schedule),
        Way::AtOnce => apply_at_once(alloc, world, schedule),
    }
}

/// A run of which nothing has happened.
fn world_of(alloc: Global, schedule: &Schedule) -> Result<World, Failed> {
    let image = image_of(alloc, &schedule.program)?;
    world_in(alloc, &image)
}

/// A run of an image, of which nothing has happened.
fn world_in(alloc: Global, image: &Image) -> Result<World, Failed> {
    again!(World::open(alloc, image, b"", BOUND, None, None, WORKERS))
}

/// The events of a schedule's text.
pub fn parsed(alloc: Global, schedule: &Schedule) -> Result<Answer, Failed> {
    let text = schedule.whole_text(alloc)?;
    answer_of_text(alloc, text.as_bytes())
}

/// The events in a text, and the digest of the text.
fn answer_of_text(alloc: Global, text: &[u8]) -> Result<Answer, Failed> {
    let events = events_in(alloc, text)?;
    Ok(Answer {
        count: events.len() as u64,
        value: 0,
        digest: digest_of(text),
    })
}

/// The events of a schedule.
fn events_of(alloc: Global, schedule: &Schedule) -> Result<Vec<Event>, Failed> {
    let text = schedule.whole_text(alloc)?;
    events_in(alloc, text.as_bytes())
}

/// The events in a text.
fn events_in(alloc: Global, text: &[u8]) -> Result<Vec<Event>, Failed> {
    again!(parse(alloc, text))
}

/// The events of a schedule, one after another.
fn apply_in_turn(alloc: Global, world: &mut World, schedule: &Schedule) -> Result<Answer, Failed> {
    let events = events_of(alloc, schedule)?;
    apply_events(alloc, world, &events)?;
    answer_of(alloc, world)
}

/// Events, one after another.
fn apply_events(alloc: Global, world: &mut World, events: &[Event]) -> Result<(), Failed> {
    for event in events {
        apply_event(alloc, world, *event)?;
    }
    Ok(())
}

/// An event.
fn apply_event(alloc: Global, world: &mut World, event: Event) -> Result<(), Failed> {
    let before = Lent::of(alloc, world)?;
    again!(world.apply(event), before.is_of(alloc, world)?)
}

/// The events of a schedule, all at once, and again from the one for which memory ran out.
fn apply_at_once(alloc: Global, world: &mut World, schedule: &Schedule) -> Result<Answer, Failed> {
    let events = events_of(alloc, schedule)?;
    if let Err(refused) = world.apply_all(&events) {
        go_on(world, &events, refused)?;
    }
    answer_of(alloc, world)
}

/// The events from the one on for which memory ran out.
fn go_on(world: &mut World, events: &[Event], refused: RefusedEvent) -> Result<(), Failed> {
    match (refused.fault, events.get(refused.place..)) {
        (EventFault::OutOfMemory, Some(left)) => match world.apply_all(left) {
            Ok(()) => Ok(()),
            Err(_) => Err(Failed::Twice),
        },
        _ => Err(Failed::Other),
    }
}

/// A run amid a schedule, after its first events.
pub fn world_amid(alloc: Global, schedule: &Schedule, count: usize) -> Result<World, Failed> {
    let mut world = world_of(alloc, schedule)?;
    apply_first(alloc, &mut world, schedule, count)?;
    Ok(world)
}

/// The first events of a schedule.
fn apply_first(
    alloc: Global,
    world: &mut World,
    schedule: &Schedule,
    count: usize,
) -> Result<(), Failed> {
    let events = events_of(alloc, schedule)?;
    match events.get(..count) {
        Some(first) if world.apply_all(first).is_ok() => Ok(()),
        _ => Err(Failed::SetUp),
    }
}

/// What a run came to so far.
fn answer_of(alloc: Global, world: &World) -> Result<Answer, Failed> {
    let status = match world.outcome() {
        Some(RunOutcome::Exit(status)) => status,
        Some(_) => return Err(Failed::Other),
        None => 0,
    };
    Ok(Answer {
        count: world.turns().len() as u64,
        value: status,
        digest: digest_at(alloc, world)?,
    })
}

/// A digest of a run's present memory and of its trace so far.
fn digest_at(alloc: Global, world: &World) -> Result<u64, Failed> {
    let trace = trace_text(alloc, world.turns())?;
    let memory = Picture::of(alloc, world.now())?;
    Ok(mixed(memory.digest(), digest_of(trace.as_bytes())))
}
