//! The calls of mutexes, condition variables and barriers.
#![tactic(auto)]

ghost use Rattle.std.specs.Prelude.{◌<◌};
ghost use Rattle.abi.specs.Limits as limit;
ghost use Rattle.condvar_barrier.specs.Rows as row;
ghost use Rattle.call_table.specs.Effects.{by_objects};
ghost use Rattle.call_table.specs.StateInCall.{state_in, ComesTo, MayComeToWait};

use crate::state_in_call::StateInCall;
use crate::state_in_call::threads_change::{let_arrived_pass, set_status, wake_up};
use abi::Reply;
use thread_table::Status;

impl StateInCall {
    pub(super) fn lock(&mut self, thread: u32, mutex: u32) -> Reply
        requires { thread < limit.threads }
        ensures { ComesTo result self.old (by_objects (λ objects. row.lock objects thread mutex) (state_in self.old)) self.new }
    {
        self.objects.lock(thread, mutex)
    }

    pub(super) fn unlock(&mut self, thread: u32, mutex: u32) -> Reply
        ensures { ComesTo result self.old (by_objects (λ objects. row.unlock objects thread mutex) (state_in self.old)) self.new }
    {
        self.objects.unlock(thread, mutex)
    }

    pub(super) fn wait(&mut self, thread: u32, condition: u32, mutex: u32) -> Reply
        requires { MayComeToWait self.old thread }
        ensures { ComesTo result self.old (by_objects (λ objects. row.wait objects thread condition mutex) (state_in self.old)) self.new }
    {
        self.objects.wait(thread, condition, mutex)
    }

    pub(super) fn signal(&mut self, condition: u32) -> Reply
        ensures { ComesTo result self.old (by_objects (λ objects. row.signal objects condition) (state_in self.old)) self.new }
    {
        let answer = self.objects.signal(condition);
        if let Some(woken) = answer.let_go {
            let status = Status::Woken(u32::from(woken.mutex));
            set_status(&mut self.threads, u32::from(woken.thread), status);
        }
        answer.reply
    }

    pub(super) fn broadcast(&mut self, condition: u32) -> Reply
        ensures { ComesTo result self.old (by_objects (λ objects. row.broadcast objects condition) (state_in self.old)) self.new }
    {
        let answer = self.objects.broadcast(condition);
        wake_up(&mut self.threads, answer.let_go.as_slice());
        answer.reply
    }

    pub(super) fn barrier(&mut self, thread: u32, number: u32, count: u32) -> Reply
        requires { MayComeToWait self.old thread }
        ensures { ComesTo result self.old (by_objects (λ objects. row.barrier objects thread number count) (state_in self.old)) self.new }
    {
        let answer = self.objects.barrier(thread, number, count);
        let_arrived_pass(&mut self.threads, answer.let_go.as_slice());
        answer.reply
    }
}
