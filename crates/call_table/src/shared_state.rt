//! The state of a run between two turns: memory, threads, objects, input and output. Changed by a commit, a call or a wake alone.
ghost use Rattle.std.specs.Prelude.{◌≡◌, true};
ghost use Rattle.call_table.specs.Waiting.{are_parked};

use crate::state_in_call::StateInCall;
use abi::Reply;
use commit::Patch;
use condvar_barrier::Objects;
use guest_memory::layout::STACK_POINTER;
use hart::Hart;
use paged_memory::Snapshot;
use std::alloc::{AllocError, Global};
use thread_table::Threads;

/// What stands between two turns of a run: the shared memory, the threads, the objects, how many pages the
/// heap was ever given, what is left of the input, and the output. It keeps that who waits at an object is
/// blocked there; a call breaks that for a while, and so is carried out on the `StateInCall` inside.
#[derive(Drop)]
pub struct SharedState {
    inner: StateInCall,
    ghost parked: { are_parked inner.threads inner.objects.waiters ≡ true },
}

#[tactic(auto, unfolding(crate::specs::Shared::state_of, crate::specs::Shared::input_of, crate::specs::StateInCall::state_in))]
impl SharedState {
    ghost use Rattle.std.specs.Prelude.{◌≡◌, ◌%◌, ◌<◌, true, IfOk, OnOk, OnErr, length};
    ghost use Rattle.condvar_barrier.specs.Objects.{holds};
    ghost use Rattle.paged_memory.specs.Snapshot.{cells_of};
    ghost use Rattle.thread_table.specs.Status.{is_ready};
    ghost use Rattle.thread_table.specs.declared.status.Status.TheVariants.{Woken};
    ghost use Rattle.call_table.specs.State.{row_of, started_state};
    ghost use Rattle.call_table.specs.Effects.{settled};
    ghost use Rattle.call_table.specs.CommitAndWake.{after_wake, committed_bytes};
    ghost use Rattle.call_table.specs.Called.{commit_then_call};
    ghost use Rattle.call_table.specs.Shared.{state_of, input_of};

    /// The state where thread 0 is about to begin at an entry, with these values in x10 and x11, this memory and this input.
    pub fn new(
        alloc: Global,
        memory: Snapshot,
        entry: u32,
        x10: u32,
        x11: u32,
        input: Vec<u8>,
    ) -> Self
        requires { entry % 4 ≡ 0 }
        ensures state { state_of result ≡ started_state entry x10 x11 (cells_of memory) input.items }
        ensures input { input_of result ≡ input.items }
    {
        let mut threads = Threads::new();
        let _number = threads.create(Hart::new(entry, STACK_POINTER, x10, x11));
        SharedState {
            inner: StateInCall {
                memory,
                threads,
                objects: Objects::new(),
                heap_pages: 0,
                input,
                taken: 0,
                output: Vec::new(alloc),
            },
        }
    }

    /// The same state. The memory's pages are shared, all else is copied.
    pub fn try_clone(&self) -> Result<Self, AllocError>
        ensures state { IfOk result (λ copy. state_of copy ≡ state_of self.now) }
        ensures input { IfOk result (λ copy. input_of copy ≡ input_of self.now) }
    {
        let inner = self.inner.try_clone()?;
        Ok(SharedState { inner })
    }

    /// The shared memory.
    pub fn memory(&self) -> &Snapshot
        ensures { cells_of result.now ≡ (state_of self.now).memory }
    {
        &self.inner.memory
    }

    /// The threads.
    pub fn threads(&self) -> &Threads
        ensures { result.now ≡ (state_of self.now).threads }
    {
        &self.inner.threads
    }

    /// The mutexes, condition variables and barriers.
    pub fn objects(&self) -> &Objects
        ensures { result.now ≡ (state_of self.now).objects }
    {
        &self.inner.objects
    }

    /// Whether a thread holds any mutex.
    pub fn holds(&self, thread: u32) -> bool
        ensures { result ≡ holds (state_of self.now).objects thread }
    {
        self.inner.objects.holds(thread)
    }

    /// The output.
    pub fn output(&self) -> &[u8]
        ensures { result.now ≡ (state_of self.now).output }
    {
        self.inner.output.as_slice()
    }

    /// Commits what a ready thread changed. It has this hart and this count of executed instructions then. Nothing
    /// changes when memory runs out.
    pub fn commit(
        &mut self,
        thread: u32,
        patch: &Patch,
        hart: Hart,
        executed: u64,
    ) -> Result<(), AllocError>
        requires made { thread < length (state_of self.old).threads }
        requires ready { is_ready (row_of (state_of self.old) thread).status ≡ true }
        ensures committed { OnOk result (state_of self.new ≡ committed_bytes (state_of self.old) thread patch.now hart executed) }
        ensures kept { OnErr result (state_of self.new ≡ state_of self.old) }
        ensures input { input_of self.new ≡ input_of self.old }
    {
        self.inner.commit(thread, patch, hart, executed)
    }

    /// Commits what a ready thread changed, as `commit` does, and carries out the call that it then makes with
    /// this hart, by the call table. Answers what the call came to. Nothing changes when memory runs out.
    pub fn commit_and_call(
        &mut self,
        thread: u32,
        patch: &Patch,
        hart: Hart,
        executed: u64,
    ) -> Result<Reply, AllocError>
        requires made { thread < length (state_of self.old).threads }
        requires ready { is_ready (row_of (state_of self.old) thread).status ≡ true }
        ensures reply { IfOk result (λ reply. reply ≡ (commit_then_call (state_of self.old) thread patch.now hart executed).reply) }
        ensures settled { OnOk result
            (state_of self.new ≡ settled thread (commit_then_call (state_of self.old) thread patch.now hart executed)) }
        ensures kept { OnErr result (state_of self.new ≡ state_of self.old) }
        ensures input { input_of self.new ≡ input_of self.old }
    {
        self.inner.commit_and_call(thread, patch, hart, executed)
    }

    /// The turn of a thread that is woken for a mutex: it takes the mutex, and its wait is done.
    pub fn wake(&mut self, thread: u32, mutex: u32)
        requires { (row_of (state_of self.old) thread).status ≡ Woken mutex }
        ensures woken { state_of self.new ≡ after_wake (state_of self.old) thread mutex }
        ensures input { input_of self.new ≡ input_of self.old }
    {
        self.inner.wake(thread, mutex);
    }
}
