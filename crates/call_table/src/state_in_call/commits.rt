//! The commit of what a thread changed, alone and with its call.
#![tactic(auto, unfolding(crate::specs::StateInCall::state_in))]

ghost use Rattle.std.specs.Prelude.{◌≡◌, false, OnOk, OnErr, slice_set};
ghost use Rattle.call_table.specs.Called.{commit_then_call};
ghost use Rattle.call_table.specs.CommitAndWake.{committed_bytes};
ghost use Rattle.call_table.specs.Room.{changes_memory, HasRoom};
ghost use Rattle.call_table.specs.StateInCall.{state_in, MayTakeTurn, Settles, EndsTurn};
ghost use Rattle.paged_memory.specs.Snapshot.{cells_of};

use crate::state_in_call::StateInCall;
use abi::limits::TRANSFER;
use abi::{Call, Reply};
use commit::{Patch, apply};
use ecalls::call_of;
use hart::Hart;
use paged_memory::Snapshot;
use std::alloc::AllocError;
use thread_table::Thread;

impl StateInCall {
    /// Commits what a ready thread changed. It has this hart and this count of executed instructions then. Nothing
    /// changes when memory runs out.
    #[tactic(auto, unfolding(crate::specs::StateInCall::state_in, crate::specs::CommitAndWake::committed_bytes, crate::specs::State::with_thread))]
    pub(crate) fn commit(
        &mut self,
        thread: u32,
        patch: &Patch,
        hart: Hart,
        executed: u64,
    ) -> Result<(), AllocError>
        requires { MayTakeTurn self.old thread }
        ensures committed { OnOk result (state_in self.new ≡ committed_bytes (state_in self.old) thread patch.now hart executed) }
        ensures kept { OnErr result (state_in self.new ≡ state_in self.old) }
        ensures ends { EndsTurn self.old self.new }
        ensures output { self.new.output ≡ self.old.output }
    {
        apply(&mut self.memory, patch)?;
        let row = *self.threads.get(thread);
        self.threads.set(
            thread,
            Thread {
                hart,
                executed,
                ..row
            },
        );
        Ok(())
    }

    /// Sets the shared memory, and the row of a ready thread. It takes back a commit.
    fn restore(&mut self, memory: Snapshot, thread: u32, row: Thread)
        requires { MayTakeTurn self.old thread }
        ensures restored { state_in self.new
            ≡ record (state_in self.old) { memory = cells_of memory; threads = slice_set self.old.threads thread row } }
        ensures ends { EndsTurn self.old self.new }
    {
        self.memory = memory;
        self.threads.set(thread, row);
    }

    /// Commits what a ready thread changed, and carries out the call that it then makes with this hart. Nothing
    /// changes when memory runs out.
    pub(crate) fn commit_and_call(
        &mut self,
        thread: u32,
        patch: &Patch,
        hart: Hart,
        executed: u64,
    ) -> Result<Reply, AllocError>
        requires { MayTakeTurn self.old thread }
        ensures { Settles result self.old thread (commit_then_call (state_in self.old) thread patch.now hart executed) self.new }
    {
        let call = call_of(&hart);
        if changes_memory(call) {
            return self.commit_and_change(thread, patch, hart, executed);
        }
        self.make_room(call)?;
        self.commit(thread, patch, hart, executed)?;
        self.call(thread)
    }

    /// Makes room for what a call that doesn't change the shared memory takes.
    fn make_room(&mut self, call: Call) -> Result<(), AllocError>
        requires { changes_memory call ≡ false }
        ensures room { OnOk result (HasRoom self.new.output call) }
        ensures state { state_in self.new ≡ state_in self.old }
        ensures threads { self.new.threads ≡ self.old.threads }
        ensures objects { self.new.objects ≡ self.old.objects }
        ensures input { self.new.input ≡ self.old.input }
    {
        match call {
            Call::Write { length, .. } => self.output.reserve(length.min(TRANSFER) as usize),
            Call::Exit { .. }
            | Call::ThreadExit { .. }
            | Call::Create { .. }
            | Call::Join { .. }
            | Call::Lock { .. }
            | Call::Unlock { .. }
            | Call::Wait { .. }
            | Call::Signal { .. }
            | Call::Broadcast { .. }
            | Call::Barrier { .. }
            | Call::Read { .. }
            | Call::Memory { .. }
            | Call::Sync
            | Call::Release { .. }
            | Call::Unknown { .. } => Ok(()),
        }
    }

    /// Does what `commit_and_call` does for a call that may change the shared memory. A clone of the memory is kept,
    /// to take the commit back.
    #[tactic(auto)]
    fn commit_and_change(
        &mut self,
        thread: u32,
        patch: &Patch,
        hart: Hart,
        executed: u64,
    ) -> Result<Reply, AllocError>
        requires { MayTakeTurn self.old thread }
        ensures { Settles result self.old thread (commit_then_call (state_in self.old) thread patch.now hart executed) self.new }
    {
        let memory = self.memory.try_clone()?;
        let row = *self.threads.get(thread);
        self.commit(thread, patch, hart, executed)?;
        match self.call(thread) {
            Ok(reply) => Ok(reply),
            Err(error) => {
                self.restore(memory, thread, row);
                Err(error)
            }
        }
    }
}

/// Whether a call may change the shared memory.
fn changes_memory(call: Call) -> bool
    ensures { result ≡ changes_memory call }
{
    match call.kind() {
        Some(kind) => kind.memory_use().is_change(),
        None => false,
    }
}
