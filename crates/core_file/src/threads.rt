//! The threads of a run as a core file shows them.
ghost use Rattle.std.specs.Prelude.{◌≡◌, ◌+◌, ◌<◌, ◌≤◌, ◌^◌, IfOk, length};
ghost use Rattle.abi.specs.Limits as limit;
ghost use Rattle.hart.specs.HartState.{next_pc, with_pc};
ghost use Rattle.core_file.specs.Shown as spec;

use crate::core_thread::CoreThread;
use hart::{Cause, Hart};
use std::alloc::{AllocError, Global};
use thread_table::{Status, Thread};
use token::RunOutcome;

/// The threads of a run that ended so, as a core file shows them: the one that trapped, if one did, and then the others
/// by their numbers. Each has the run's signal, since debuggers may take that of any of them.
pub fn core_threads(
    alloc: Global,
    outcome: RunOutcome,
    threads: &[Thread],
) -> Result<Vec<CoreThread>, AllocError>
    requires { length threads.now ≤ limit.threads }
    ensures { IfOk result (λ shown. shown.items ≡ spec.core_threads outcome threads.now) }
{
    let all = in_order(alloc, outcome, threads)?;
    let trapped = all.iter().filter(|thread| has_trapped(outcome, thread));
    let others = all.iter().filter(|thread| !has_trapped(outcome, thread));
    trapped.chain(others).copied().collect(alloc)
}

/// Whether a thread is the one that trapped.
fn has_trapped(outcome: RunOutcome, shown: &CoreThread) -> bool
    ensures { result ≡ spec.has_trapped outcome shown.now }
{
    match outcome {
        RunOutcome::Trap { thread, .. } => u64::from(shown.pid) == u64::from(thread) + 1,
        _ => false,
    }
}

/// All threads by their numbers.
fn in_order(
    alloc: Global,
    outcome: RunOutcome,
    threads: &[Thread],
) -> Result<Vec<CoreThread>, AllocError>
    requires { length threads.now ≤ limit.threads }
    ensures { IfOk result (λ shown. shown.items ≡ spec.in_order outcome threads.now) }
{
    let mut shown = Vec::new(alloc);
    for (number, thread) in threads.iter().enumerate() {
        shown.push(core_thread(outcome, number as u32, thread))?;
    }
    Ok(shown)
}

/// A thread of a number.
fn core_thread(outcome: RunOutcome, number: u32, thread: &Thread) -> CoreThread
    requires { number + 1 < 2 ^ 32 }
    ensures { result ≡ spec.core_thread outcome number thread.now }
{
    CoreThread {
        pid: number + 1,
        signal: signal_in(outcome),
        hart: resting(thread),
    }
}

/// The signal that ended a run, 0 if none did.
fn signal_in(outcome: RunOutcome) -> u16
    ensures { result ≡ spec.signal_in outcome }
{
    match outcome {
        RunOutcome::Trap { trap, .. } => signal_of(trap.cause),
        _ => 0,
    }
}

/// The signal that a trap is shown as.
fn signal_of(cause: Cause) -> u16
    ensures { result ≡ spec.signal_of cause }
{
    match cause {
        Cause::TargetMisaligned | Cause::LoadMisaligned | Cause::StoreMisaligned => 7,
        Cause::FetchDenied | Cause::LoadDenied | Cause::StoreDenied => 11,
        Cause::IllegalInstruction => 4,
        Cause::Breakpoint => 5,
        Cause::BoundReached => 24,
    }
}

/// The registers of a thread: if it waits in a call, those after its ecall.
fn resting(thread: &Thread) -> Hart
    ensures { result ≡ spec.resting thread.now.status thread.now.hart }
{
    match thread.status {
        Status::Blocked | Status::Woken(_) => after_call(thread.hart),
        Status::Ready | Status::Done(_) => thread.hart,
    }
}

/// The registers of a thread at an ecall, with pc at the next instruction.
fn after_call(hart: Hart) -> Hart
    ensures { result ≡ with_pc hart (next_pc hart) }
{
    let mut hart = hart;
    hart.set_pc(hart.pc().wrapping_add(4));
    hart
}
