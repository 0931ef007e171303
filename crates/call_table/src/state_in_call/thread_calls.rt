//! The calls that make threads, wait for their end, and end them.
#![tactic(auto, unfolding(crate::specs::StateInCall::state_in))]

ghost use Rattle.std.specs.Prelude.{◌<◌, length};
ghost use Rattle.call_table.specs.Effects as effects;
ghost use Rattle.call_table.specs.StateInCall.{state_in, ComesTo};

use crate::state_in_call::StateInCall;
use crate::state_in_call::replies::{answered, answered_with};
use crate::state_in_call::threads_change::let_pass;
use abi::{Code, Reply};
use hart::Hart;

impl StateInCall {
    #[tactic(auto, unfolding(crate::specs::StateInCall::state_in, crate::specs::Effects::thread_exit))]
    pub(super) fn thread_exit(&mut self, thread: u32, value: u32) -> Reply
        requires { thread < length self.old.threads }
        ensures { ComesTo result self.old (effects.thread_exit (state_in self.old) thread value) self.new }
    {
        self.objects.release_all(thread);
        let joiners = self.threads.end(thread, value);
        let_pass(&mut self.threads, joiners.as_slice(), value);
        Reply::Ends
    }

    #[tactic(auto, unfolding(crate::specs::StateInCall::state_in, crate::specs::Effects::create))]
    pub(super) fn create(&mut self, entry: u32, argument: u32, stack_pointer: u32) -> Reply
        ensures { ComesTo result self.old (effects.create (state_in self.old) entry argument stack_pointer) self.new }
    {
        if entry % 4 != 0 {
            return answered(Code::BadArgument);
        }
        let number = self.threads.len() as u32;
        match self
            .threads
            .create(Hart::new(entry, stack_pointer, argument, number))
        {
            Some(number) => answered_with(number),
            None => answered(Code::Limit),
        }
    }

    #[tactic(auto, unfolding(crate::specs::StateInCall::state_in, crate::specs::Effects::join))]
    pub(super) fn join(&mut self, thread: u32, n: u32) -> Reply
        requires { thread < length self.old.threads }
        ensures { ComesTo result self.old (effects.join (state_in self.old) thread n) self.new }
    {
        let holds_lock = self.objects.holds(thread);
        self.threads.join(thread, n, holds_lock)
    }
}
