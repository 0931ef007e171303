//! The state of a run as the calls work on it.
#![tactic(auto, unfolding(crate::specs::StateInCall::state_in))]

ghost use Rattle.std.specs.Prelude.{◌≡◌, ◌<◌, ◌≤◌, length};
ghost use Rattle.abi.specs.Limits as limit;
ghost use Rattle.guest_memory.specs.Layout as layout;

mod commits;
mod memory_calls;
mod object_calls;
mod replies;
mod thread_calls;
mod threads_change;
mod transfer_calls;

use crate::state_in_call::replies::answered;
use crate::state_in_call::threads_change::{complete, finish_call, set_status};
use abi::{Call, Code, Reply};
use condvar_barrier::Objects;
use ecalls::call_of;
use hart::Hart;
use paged_memory::Snapshot;
use std::alloc::AllocError;
use thread_table::{Status, Threads};

/// The state of a run, also in the middle of a call. There a thread may wait at an object and not be blocked
/// yet, so the fact that a `SharedState` keeps of it doesn't hold: each method here says whether it does before
/// and after, and `SharedState` hands its calls on to them.
#[derive(Drop)]
pub(crate) struct StateInCall {
    pub(crate) memory: Snapshot,
    pub(crate) threads: Threads,
    pub(crate) objects: Objects,
    /// How many pages the heap was ever given.
    pub(crate) heap_pages: u32,
    pub(crate) input: Vec<u8>,
    /// How many bytes of the input were read.
    pub(crate) taken: usize,
    pub(crate) output: Vec<u8>,
    ghost heap: { heap_pages ≤ layout.heap_pages },
    ghost input_left: { taken ≤ length input.items },
    ghost output_room: { length output.items ≤ limit.output },
}

impl StateInCall {
    ghost use Rattle.std.specs.Prelude.{◌≡◌, ◌<◌, true, IfOk, IsOk, length};
    ghost use Rattle.abi.specs.Calls.{fate_of, kind_in, may_reply};
    ghost use Rattle.ecalls.specs.Request.{call_of};
    ghost use Rattle.thread_table.specs.declared.status.Status.TheVariants.{Woken};
    ghost use Rattle.call_table.specs.Effects.{effect, settled};
    ghost use Rattle.call_table.specs.Called.{called};
    ghost use Rattle.call_table.specs.Room.{HasRoom};
    ghost use Rattle.call_table.specs.Waiting.{are_parked};
    ghost use Rattle.call_table.specs.CommitAndWake.{after_wake};
    ghost use Rattle.call_table.specs.State.{row_of};
    ghost use Rattle.call_table.specs.StateInCall.{state_in, came_to, MayTakeTurn, MayComeToWait, CarriesOut, Settles, EndsTurn};

    /// The same state. The memory's pages are shared, all else is copied.
    pub(crate) fn try_clone(&self) -> Result<Self, AllocError>
        ensures state { IfOk result (λ copy. state_in copy ≡ state_in self.now) }
        ensures threads { IfOk result (λ copy. copy.threads ≡ self.now.threads) }
        ensures objects { IfOk result (λ copy. copy.objects ≡ self.now.objects) }
        ensures input { IfOk result (λ copy. copy.input.items ≡ self.now.input.items) }
    {
        let alloc = self.memory.allocator();
        let mut threads = Threads::new();
        threads.copy_from(&self.threads);
        Ok(StateInCall {
            memory: self.memory.try_clone()?,
            threads,
            objects: self.objects.copied(),
            heap_pages: self.heap_pages,
            input: Vec::from_slice(alloc, self.input.as_slice())?,
            taken: self.taken,
            output: Vec::from_slice(alloc, self.output.as_slice())?,
        })
    }

    /// Carries out the call that the hart of a ready thread makes, and answers what it came to. Nothing changes
    /// when memory runs out.
    #[tactic(auto, unfolding(crate::specs::StateInCall::state_in))]
    pub(crate) fn call(&mut self, thread: u32) -> Result<Reply, AllocError>
        requires { MayTakeTurn self.old thread }
        ensures settles { Settles result self.old thread (called (state_in self.old) thread) self.new }
        ensures fate { IfOk result (λ reply.
            may_reply (fate_of (kind_in (call_of (row_of (state_in self.old) thread).hart))) reply ≡ true) }
        ensures succeeds { HasRoom self.old.output (call_of (row_of (state_in self.old) thread).hart) → IsOk result }
    {
        prove!((thread as usize) < self.threads.len());
        let call = call_of(&self.threads.get(thread).hart);
        let reply = self.carry_out(thread, call)?;
        self.settle(thread, reply);
        Ok(reply)
    }

    /// Carries out a call of a thread, but for what it leaves in the thread itself. Nothing changes when memory
    /// runs out.
    #[tactic(auto, unfolding(crate::specs::StateInCall::state_in, crate::specs::Effects::effect))]
    fn carry_out(&mut self, thread: u32, call: Call) -> Result<Reply, AllocError>
        requires made { thread < length self.old.threads }
        requires waits { MayComeToWait self.old thread }
        ensures carries { CarriesOut result self.old (effect (state_in self.old) thread call) self.new }
        ensures succeeds { HasRoom self.old.output call → IsOk result }
    {
        match call {
            Call::Exit { .. } => Ok(Reply::Ends),
            Call::ThreadExit { value } => Ok(self.thread_exit(thread, value)),
            Call::Create {
                entry,
                argument,
                stack_pointer,
            } => Ok(self.create(entry, argument, stack_pointer)),
            Call::Join { thread: n } => Ok(self.join(thread, n)),
            Call::Lock { mutex } => Ok(self.lock(thread, mutex)),
            Call::Unlock { mutex } => Ok(self.unlock(thread, mutex)),
            Call::Wait { condition, mutex } => Ok(self.wait(thread, condition, mutex)),
            Call::Signal { condition } => Ok(self.signal(condition)),
            Call::Broadcast { condition } => Ok(self.broadcast(condition)),
            Call::Barrier { barrier, count } => Ok(self.barrier(thread, barrier, count)),
            Call::Write { address, length } => self.write(address, length),
            Call::Read { address, length } => self.read(address, length),
            Call::Memory { pages } => self.new_pages(pages),
            Call::Sync => Ok(answered(Code::Done)),
            Call::Release { address, pages } => self.release(address, pages),
            Call::Unknown { .. } => Ok(answered(Code::NoSuchCall)),
        }
    }

    /// Settles what a call came to in its caller: a completed call is finished in its hart, and who waits is
    /// blocked.
    #[tactic(auto, unfolding(crate::specs::StateInCall::state_in, crate::specs::Effects::settled))]
    fn settle(&mut self, thread: u32, reply: Reply)
        ensures done { state_in self.new ≡ settled thread (came_to reply self.old) }
        ensures input { self.new.input ≡ self.old.input }
    {
        match reply {
            Reply::Completed { code, value } => {
                finish_call(&mut self.threads, thread, code, value);
            }
            Reply::Waits => set_status(&mut self.threads, thread, Status::Blocked),
            Reply::Ends => {}
        }
    }

    /// The turn of a woken thread: it takes the mutex of its wait, and the wait is done.
    pub(crate) fn wake(&mut self, thread: u32, mutex: u32)
        requires woken { (row_of (state_in self.old) thread).status ≡ Woken mutex }
        requires parked { are_parked self.old.threads self.old.objects.waiters ≡ true }
        ensures state { state_in self.new ≡ after_wake (state_in self.old) thread mutex }
        ensures ends { EndsTurn self.old self.new }
    {
        prove!((thread as usize) < self.threads.len());
        self.objects.take_back(thread, mutex);
        complete(&mut self.threads, thread, None);
    }
}
