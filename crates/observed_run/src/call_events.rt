//! The events of a turn's end: of the call that it makes, or of a wake.
ghost use Rattle.std.specs.Prelude.{◌≡◌, ◌∷◌, ◌++◌, [], IfOk, OnOk, option_map};
ghost use Rattle.ecalls.specs.Request as request;
ghost use Rattle.observed_run.specs.Calls as spec;
ghost use Rattle.observed_run.specs.Calls.{AreCompleted, AreOfCall, AreOfEnd, AreOfStop, AreOrdered, IsRound};

use crate::actor::{Actor, byte_of};
use crate::before::Before;
use crate::ranges::accesses;
use abi::{Call, Code, Reply, Touched};
use ecalls::call_of;
use hart::Hart;
use races::ObservedEvent;
use segment::SegmentEnd;
use std::alloc::{AllocError, Global};
use thread_table::Threads;
use token::TurnStop;

/// A turn that has ended: what its events say besides the call.
#[derive(Clone, Copy)]
pub(crate) struct EndedTurn<'a> {
    /// Who had the turn.
    pub(crate) actor: Actor,
    /// The mutexes that the thread held before it.
    pub(crate) held: &'a [u32],
    /// The threads that it let go.
    pub(crate) passed: &'a [u8],
}

/// The threads that a turn let go: of those that were blocked before it the ones that have a turn after it.
pub(crate) fn let_go(alloc: Global, before: &Before, after: &Threads) -> Result<Vec<u8>, AllocError>
    ensures { IfOk result (λ passed. passed.items ≡ spec.let_go before.now.blocked.items after.now) }
{
    before
        .blocked
        .iter()
        .filter(|number| has_turn(after, **number))
        .map(|number| byte_of(*number))
        .collect(alloc)
}

/// Whether there is a thread of this number, and has a turn.
fn has_turn(threads: &Threads, number: u32) -> bool
    ensures { result ≡ spec.has_turn_in threads.now number }
{
    (number as usize) < threads.len() && threads.get(number).status.has_turn()
}

/// The events of a turn's end: of a stop with the end of its segment, or of a wake without one.
pub(crate) fn end_events(
    alloc: Global,
    ended: &EndedTurn<'_>,
    end: Option<&SegmentEnd>,
    stop: TurnStop,
) -> Result<Vec<ObservedEvent>, AllocError>
    ensures { IfOk result (λ events.
        AreOfEnd ended.now.actor (option_map (λ end. end.now) end.entry) ended.now.held.now ended.now.passed.now stop events.items) }
{
    match end {
        Some(end) => stop_events(alloc, ended, &end.hart, stop),
        None => wake_events(alloc, ended, stop),
    }
}

/// The events of a stop with this hart; a trap and a quantum order nothing.
fn stop_events(
    alloc: Global,
    ended: &EndedTurn<'_>,
    hart: &Hart,
    stop: TurnStop,
) -> Result<Vec<ObservedEvent>, AllocError>
    ensures { IfOk result (λ events.
        AreOfStop ended.now.actor hart.now ended.now.held.now ended.now.passed.now stop events.items) }
{
    match stop {
        TurnStop::Call { reply, .. } => call_events(alloc, ended, hart, reply),
        TurnStop::Trap { .. } | TurnStop::Quantum { .. } | TurnStop::Wake { .. } => {
            Ok(Vec::new(alloc))
        }
    }
}

/// The events of the turn of a woken thread, which takes its mutex.
fn wake_events(
    alloc: Global,
    ended: &EndedTurn<'_>,
    stop: TurnStop,
) -> Result<Vec<ObservedEvent>, AllocError>
    ensures { IfOk result (λ events. events.items ≡ spec.wake_events ended.now.actor stop) }
{
    match stop {
        TurnStop::Wake { mutex } => one(
            alloc,
            ObservedEvent::Lock {
                thread: ended.actor.thread,
                mutex,
            },
        ),
        TurnStop::Call { .. } | TurnStop::Trap { .. } | TurnStop::Quantum { .. } => {
            Ok(Vec::new(alloc))
        }
    }
}

/// The events of the call that a hart at an ecall made, with its reply.
fn call_events(
    alloc: Global,
    ended: &EndedTurn<'_>,
    hart: &Hart,
    reply: Reply,
) -> Result<Vec<ObservedEvent>, AllocError>
    ensures { IfOk result (λ events.
        AreOfCall ended.now.actor hart.now.pc ended.now.held.now ended.now.passed.now (request.call_of hart.now) reply events.items) }
{
    let call = call_of(hart);
    match reply {
        Reply::Completed {
            code: Code::Done,
            value,
        } => completed(alloc, ended, hart.pc(), value.unwrap_or(0), call),
        Reply::Completed { .. } => Ok(Vec::new(alloc)),
        Reply::Waits => waiting(alloc, ended, call),
        Reply::Ends => ending(alloc, ended, call),
    }
}

/// The events of a call that is completed with code 0: its loads or stores in the guest's memory, or whom it orders.
fn completed(
    alloc: Global,
    ended: &EndedTurn<'_>,
    pc: u32,
    value: u32,
    call: Call,
) -> Result<Vec<ObservedEvent>, AllocError>
    ensures { IfOk result (λ events. AreCompleted ended.now.actor pc ended.now.passed.now value call events.items) }
{
    match call.touched() {
        Touched::Nothing => ordered(alloc, ended, value, call),
        Touched::Loads { address, length } => {
            accesses(alloc, ended.actor.load(pc), address, length)
        }
        Touched::Stores { address, .. } => accesses(alloc, ended.actor.store(pc), address, value),
    }
}

/// The events by which a call that is completed with code 0 orders threads.
fn ordered(
    alloc: Global,
    ended: &EndedTurn<'_>,
    value: u32,
    call: Call,
) -> Result<Vec<ObservedEvent>, AllocError>
    ensures { IfOk result (λ events. AreOrdered ended.now.actor ended.now.passed.now value call events.items) }
{
    let thread = ended.actor.thread;
    match call {
        Call::Create { .. } => {
            let created = byte_of(value);
            one(alloc, ObservedEvent::Create { thread, created })
        }
        Call::Join { thread: number } => {
            let ended = byte_of(number);
            one(alloc, ObservedEvent::Join { thread, ended })
        }
        Call::Lock { mutex } => one(alloc, ObservedEvent::Lock { thread, mutex }),
        Call::Unlock { mutex } => one(alloc, ObservedEvent::Unlock { thread, mutex }),
        Call::Signal { .. } | Call::Broadcast { .. } => signals(alloc, ended),
        Call::Barrier { .. } => round(alloc, ended),
        Call::Exit { .. }
        | Call::ThreadExit { .. }
        | Call::Wait { .. }
        | Call::Write { .. }
        | Call::Read { .. }
        | Call::Memory { .. }
        | Call::Sync
        | Call::Release { .. }
        | Call::Unknown { .. } => Ok(Vec::new(alloc)),
    }
}

/// The events of a call whose caller waits.
fn waiting(
    alloc: Global,
    ended: &EndedTurn<'_>,
    call: Call,
) -> Result<Vec<ObservedEvent>, AllocError>
    ensures { IfOk result (λ events. events.items ≡ spec.waiting ended.now.actor call) }
{
    match call {
        Call::Wait { mutex, .. } => one(
            alloc,
            ObservedEvent::Unlock {
                thread: ended.actor.thread,
                mutex,
            },
        ),
        Call::Exit { .. }
        | Call::ThreadExit { .. }
        | Call::Create { .. }
        | Call::Join { .. }
        | Call::Lock { .. }
        | Call::Unlock { .. }
        | Call::Signal { .. }
        | Call::Broadcast { .. }
        | Call::Barrier { .. }
        | Call::Write { .. }
        | Call::Read { .. }
        | Call::Memory { .. }
        | Call::Sync
        | Call::Release { .. }
        | Call::Unknown { .. } => Ok(Vec::new(alloc)),
    }
}

/// The events of a call that ends its caller or the run.
fn ending(
    alloc: Global,
    ended: &EndedTurn<'_>,
    call: Call,
) -> Result<Vec<ObservedEvent>, AllocError>
    ensures { IfOk result (λ events. events.items ≡ spec.ending ended.now.actor ended.now.held.now ended.now.passed.now call) }
{
    match call {
        Call::ThreadExit { .. } => thread_end(alloc, ended),
        Call::Exit { .. }
        | Call::Create { .. }
        | Call::Join { .. }
        | Call::Lock { .. }
        | Call::Unlock { .. }
        | Call::Wait { .. }
        | Call::Signal { .. }
        | Call::Broadcast { .. }
        | Call::Barrier { .. }
        | Call::Write { .. }
        | Call::Read { .. }
        | Call::Memory { .. }
        | Call::Sync
        | Call::Release { .. }
        | Call::Unknown { .. } => Ok(Vec::new(alloc)),
    }
}

/// The events of a thread's end: it has no mutex any longer, and the joins of it are completed.
fn thread_end(alloc: Global, ended: &EndedTurn<'_>) -> Result<Vec<ObservedEvent>, AllocError>
    ensures { IfOk result (λ events. events.items ≡ spec.thread_end ended.now.actor ended.now.held.now ended.now.passed.now) }
{
    let thread = ended.actor.thread;
    let mut events = unlocks(alloc, ended)?;
    events.push(ObservedEvent::End { thread })?;
    add_joins(&mut events, ended)?;
    Ok(events)
}

/// The mutexes that an ended thread held are free.
fn unlocks(alloc: Global, ended: &EndedTurn<'_>) -> Result<Vec<ObservedEvent>, AllocError>
    ensures { IfOk result (λ events. events.items ≡ spec.unlocks ended.now.actor ended.now.held.now) }
{
    let thread = ended.actor.thread;
    ended
        .held
        .iter()
        .map(|mutex| ObservedEvent::Unlock {
            thread,
            mutex: *mutex,
        })
        .collect(alloc)
}

/// Appends the joins of a thread that has ended.
fn add_joins(events: &mut Vec<ObservedEvent>, ended: &EndedTurn<'_>) -> Result<(), AllocError>
    ensures { OnOk result (events.new.items ≡ events.old.items ++ spec.joins ended.now.actor ended.now.passed.now) }
{
    for joiner in ended.passed {
        events.push(ObservedEvent::Join {
            thread: *joiner,
            ended: ended.actor.thread,
        })?;
    }
    Ok(())
}

/// A signal or broadcast lets each of some threads go.
fn signals(alloc: Global, ended: &EndedTurn<'_>) -> Result<Vec<ObservedEvent>, AllocError>
    ensures { IfOk result (λ events. events.items ≡ spec.signals ended.now.actor ended.now.passed.now) }
{
    let thread = ended.actor.thread;
    ended
        .passed
        .iter()
        .map(|waiter| ObservedEvent::LetGo {
            thread,
            waiter: *waiter,
        })
        .collect(alloc)
}

/// The round of a barrier: those who waited, and who completed it.
fn round(alloc: Global, ended: &EndedTurn<'_>) -> Result<Vec<ObservedEvent>, AllocError>
    ensures { IfOk result (λ events. IsRound ended.now.actor ended.now.passed.now events.items) }
{
    let mut threads = Vec::from_slice(alloc, ended.passed)?;
    threads.push(ended.actor.thread)?;
    one(alloc, ObservedEvent::Round { threads })
}

/// One event.
fn one(alloc: Global, event: ObservedEvent) -> Result<Vec<ObservedEvent>, AllocError>
    ensures { IfOk result (λ events. events.items ≡ event ∷ []) }
{
    let mut events = Vec::new(alloc);
    events.push(event)?;
    Ok(events)
}
