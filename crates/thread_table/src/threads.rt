//! The threads of a run: create, join and a thread's end. Takes no memory.
ghost use Rattle.std.specs.Prelude.{◌≡◌, ◌==◌, ◌<◌, ◌≤◌, Some, [], length, map, slice_get, slice_set, OnSome, IfNone};
ghost use Rattle.abi.specs.Limits as limit;
ghost use Rattle.thread_table.specs.Thread.{let_go};
ghost use Rattle.thread_table.specs.Threads as spec;

use crate::numbers::{CAPACITY, ThreadNumbers, fill_where};
use crate::status::Status;
use crate::thread::Thread;
use abi::{Code, Reply};
use arrayvec::ArrayVec;
use hart::Hart;
use std::marker::Model;

/// The threads that a run has made, by their numbers: the first is thread 0. Numbers aren't used again.
///
/// There is room for as many threads as a run can make, in the value itself, and no call takes memory.
#[derive(Debug, Drop)]
pub struct Threads {
    made: ArrayVec<Thread, CAPACITY>,
}

impl Model for Threads {
    ghost use Rattle.std.specs.Prelude.{List};
    ghost use Rattle.thread_table.specs.declared.thread.Thread.{Thread as Row};

    ghost Value = { List Row };

    ghost view = { λ t. t.made.items };
}

impl Threads {
    /// No thread.
    pub fn new() -> Self
        ensures { result ≡ [] }
    {
        Threads {
            made: ArrayVec::new(),
        }
    }

    /// Makes them those of another table.
    pub fn copy_from(&mut self, other: &Threads)
        ensures { self.new ≡ other.now }
    {
        self.made.clear();
        let copied = self.made.try_extend_from_slice(other.made.as_slice());
        copied.unwrap();
    }

    /// How many threads were made, at most 256. All numbers below it are threads.
    pub fn len(&self) -> usize
        ensures len { result ≡ length self.now }
        ensures room { result ≤ limit.threads }
    {
        self.made.len()
    }

    /// Whether no thread was made.
    pub fn is_empty(&self) -> bool
        ensures { result ≡ (length self.now == 0) }
    {
        self.made.is_empty()
    }

    /// Thread `n`.
    pub fn get(&self, n: u32) -> &Thread
        requires { n < length self.now }
        ensures { slice_get self.now n ≡ Some result.now }
    {
        &self.made.as_slice()[n as usize]
    }

    /// Replaces thread `n`: its status, its hart and its count.
    pub fn set(&mut self, n: u32, thread: Thread)
        requires { n < length self.old }
        ensures { self.new ≡ slice_set self.old n thread }
    {
        self.made.as_mut_slice()[n as usize] = thread;
    }

    /// Makes a thread with this hart, which is ready and has executed nothing, and answers its number. None
    /// exactly where 256 were made, and then nothing changes.
    pub fn create(&mut self, hart: Hart) -> Option<u32>
        ensures number { result ≡ spec.new_number self.old }
        ensures made { OnSome result (self.new ≡ spec.created self.old hart) }
        ensures full { IfNone result (self.new ≡ self.old) }
    {
        if self.made.is_full() {
            return None;
        }
        let number = self.made.len() as u32;
        self.made.push(Thread::started(hart));
        Some(number)
    }

    /// Carries out the call join(`n`) of thread `caller`, of which `holds_lock` says whether it holds a
    /// mutex. Looked at in this order:
    ///
    /// - there is no thread `n`, or it is the caller's own: NoSuchThread;
    /// - thread `n` is done: Done with its value;
    /// - the caller holds a mutex: HoldsLock;
    /// - else the caller waits, and is blocked.
    ///
    /// Nothing changes but the status of a caller that waits.
    pub fn join(&mut self, caller: u32, n: u32, holds_lock: bool) -> Reply
        requires { caller < length self.old }
        ensures reply { result ≡ spec.join_reply self.old caller n holds_lock }
        ensures threads { self.new ≡ spec.joined self.old caller n holds_lock }
        ensures len { length self.new ≡ length self.old }
    {
        let reply = self.join_reply(caller, n, holds_lock);
        if reply == Reply::Waits {
            set_status(self.made.as_mut_slice(), caller as usize, Status::Blocked);
        }
        reply
    }

    /// What the call join(`n`) of thread `caller` comes to.
    #[tactic(auto, unfolding(crate::specs::Threads::join_reply))]
    fn join_reply(&self, caller: u32, n: u32, holds_lock: bool) -> Reply
        ensures { result ≡ spec.join_reply self.now caller n holds_lock }
    {
        let named = self.made.as_slice().get(n as usize);
        match named.map(|thread| thread.status) {
            None => refused(Code::NoSuchThread),
            Some(_) if n == caller => refused(Code::NoSuchThread),
            Some(Status::Done(value)) => Reply::Completed {
                code: Code::Done,
                value: Some(value),
            },
            Some(_) if holds_lock => refused(Code::HoldsLock),
            Some(_) => Reply::Waits,
        }
    }

    /// Ends thread `n` with a value: it is done, and who waits for it by join is ready. Answers the numbers
    /// of those, ascending: their harts are still at their calls.
    pub fn end(&mut self, n: u32, value: u32) -> ThreadNumbers
        requires { n < length self.old }
        ensures joiners { result.items ≡ spec.joiners self.old n }
        ensures numbers { spec.AreNumbersOf self.old result.items }
        ensures threads { self.new ≡ spec.ended self.old n value }
        ensures len { length self.new ≡ length self.old }
    {
        let mut joiners = ThreadNumbers::new();
        fill_where(
            self.made.as_slice(),
            |thread| thread.is_joiner_of(n),
            &mut joiners,
        );
        let_go_joiners(self.made.as_mut_slice(), n);
        set_status(self.made.as_mut_slice(), n as usize, Status::Done(value));
        joiners
    }

    /// The numbers of the threads that are ready, ascending.
    pub fn ready_list(&self) -> ThreadNumbers
        ensures list { result.items ≡ spec.ready_list self.now }
        ensures numbers { spec.AreNumbersOf self.now result.items }
    {
        let mut list = ThreadNumbers::new();
        let is_ready = |thread: &Thread| thread.status.is_ready();
        fill_where(self.made.as_slice(), is_ready, &mut list);
        list
    }

    /// The numbers of the threads that have a turn, ascending: those that are ready or woken.
    pub fn serial_list(&self) -> ThreadNumbers
        ensures list { result.items ≡ spec.serial_list self.now }
        ensures numbers { spec.AreNumbersOf self.now result.items }
    {
        let mut list = ThreadNumbers::new();
        self.fill_serial_list(&mut list);
        list
    }

    /// Fills a list with the numbers of the threads that have a turn, in place of what it had. They are ascending.
    pub fn fill_serial_list(&self, list: &mut ThreadNumbers)
        ensures list { list.new.items ≡ spec.serial_list self.now }
        ensures numbers { spec.AreNumbersOf self.now list.new.items }
    {
        let has_turn = |thread: &Thread| thread.status.has_turn();
        fill_where(self.made.as_slice(), has_turn, list);
    }
}

/// The reply of a call that is refused with a code.
fn refused(code: Code) -> Reply
    ensures { result ≡ spec.refused code }
{
    Reply::Completed { code, value: None }
}

/// Sets the status of thread `n`.
#[tactic(auto, unfolding(crate::specs::Threads::with_status))]
fn set_status(threads: &mut [Thread], n: usize, status: Status)
    requires { n < length threads.old }
    ensures status { threads.new ≡ spec.with_status threads.old n status }
    ensures len { length threads.new ≡ length threads.old }
{
    threads[n].status = status;
}

/// Makes the threads ready that wait for thread `n`.
fn let_go_joiners(threads: &mut [Thread], n: u32)
    ensures { threads.new ≡ map (let_go n) threads.old }
{
    for thread in threads.iter_mut() {
        if thread.is_joiner_of(n) {
            thread.status = Status::Ready;
        }
    }
}
