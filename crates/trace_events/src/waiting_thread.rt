//! A thread that waits, and those that are let go.
ghost use Rattle.std.specs.Prelude.{◌≡◌, ◌++◌, IfOk, OnOk};
ghost use Rattle.trace_events.specs.Threads.{arrival, without};
ghost use Rattle.trace_events.specs.Waits as spec;

use crate::release::Release;
use crate::wait::Wait;
use std::alloc::{AllocError, Global};

/// A thread that waits.
#[derive(Clone, Copy, Debug, PartialEq, Eq)]
pub struct WaitingThread {
    /// The thread.
    pub thread: u32,
    /// What it waits for.
    pub wait: Wait,
}

/// The threads that are let go, the first to come in front.
pub(crate) fn let_go(
    alloc: Global,
    release: Option<Release>,
    waiters: &[WaitingThread],
) -> Result<Vec<u32>, AllocError>
    ensures { IfOk result (λ threads. threads.items ≡ spec.let_go release waiters.now) }
{
    let mut threads = Vec::new(alloc);
    match release {
        None => {}
        Some(Release::Made { thread }) => threads.push(thread)?,
        Some(Release::First { wait }) => {
            threads = threads_at(alloc, wait, waiters)?;
            threads.truncate(1);
        }
        Some(Release::All { wait }) => threads = threads_at(alloc, wait, waiters)?,
    }
    Ok(threads)
}

/// Takes away some waiting threads that are let go, and adds a thread that comes to wait.
pub(crate) fn pass_on(
    waiters: &mut Vec<WaitingThread>,
    freed: &[u32],
    thread: u32,
    wait: Option<Wait>,
) -> Result<(), AllocError>
    ensures { OnOk result (waiters.new.items ≡ without freed.now waiters.old.items ++ arrival thread wait) }
{
    remove(waiters, freed);
    if let Some(wait) = wait {
        waiters.push(WaitingThread { thread, wait })?;
    }
    Ok(())
}

/// Takes away the waiting threads that are let go.
fn remove(waiters: &mut Vec<WaitingThread>, freed: &[u32])
    ensures { waiters.new.items ≡ without freed.now waiters.old.items }
{
    if freed.is_empty() {
        return;
    }
    waiters.retain(|waiter| !freed.contains(&waiter.thread));
}

/// Those of some waiting threads that wait for this.
fn threads_at(alloc: Global, wait: Wait, waiters: &[WaitingThread]) -> Result<Vec<u32>, AllocError>
    ensures { IfOk result (λ threads. threads.items ≡ spec.threads_at wait waiters.now) }
{
    waiters
        .iter()
        .filter(|waiter| waiter.wait.is(wait))
        .map(|waiter| waiter.thread)
        .collect(alloc)
}
