//! The mutexes, condition variables and barriers of a run: who holds what, and who waits where. Takes no memory.
ghost use Rattle.std.specs.Prelude.{◌≡◌, ◌<◌, None, [], map};
ghost use Rattle.std.specs.List.{list_any};
ghost use Rattle.abi.specs.Limits as limit;
ghost use Rattle.condvar_barrier.specs.Objects.{is_held_by, is_among, names_another};
ghost use Rattle.condvar_barrier.specs.Rows.{released_by};

use crate::answer::Answer;
use crate::wait_place::WaitPlace;
use crate::waiter::Waiter;
use crate::woken::Woken;
use abi::limits::{BARRIER_COUNT, OBJECTS, THREADS};
use abi::{Code, Reply};
use arrayvec::ArrayVec;
use std::marker::Model;

/// How many mutexes there are.
const MUTEXES: usize = OBJECTS as usize;

/// How many threads can wait at once: all that can be, since none waits twice.
pub const WAITERS: usize = THREADS as usize;

/// The mutexes, condition variables and barriers of a run: 64 of each.
#[derive(Drop)]
pub struct Objects {
    /// The holder of each mutex, `None` where it is free.
    holders: [Option<u8>; MUTEXES],
    /// Who waits at a condition variable or a barrier, in the order in which they came.
    waiters: ArrayVec<Waiter, WAITERS>,
}

impl Model for Objects {
    ghost use Rattle.condvar_barrier.specs.Objects.{ObjectState};
    ghost use Rattle.condvar_barrier.specs.Sound.{AreApart};

    ghost Value = { ObjectState };

    ghost view = { λ objects. record { holders = objects.holders; waiters = objects.waiters.items } };

    ghost invariant = { λ objects. AreApart objects.waiters.items };
}

/// The reply to a call that is refused.
fn refused(code: Code) -> Reply
    ensures { result ≡ Reply.Completed code None }
{
    Reply::Completed { code, value: None }
}

/// The reply to a call that is done.
fn done(value: Option<u32>) -> Reply
    ensures { result ≡ Reply.Completed Code.Done value }
{
    Reply::Completed {
        code: Code::Done,
        value,
    }
}

/// Whether a mutex with this holder is held by the thread.
fn is_held_by(holder: Option<u8>, thread: u32) -> bool
    ensures { result ≡ is_held_by thread holder }
{
    match holder {
        Some(holder) => u32::from(holder) == thread,
        None => false,
    }
}

/// Whether one of some mutexes is held by the thread.
fn is_any_held_by(holders: &[Option<u8>], thread: u32) -> bool
    ensures { result ≡ list_any (is_held_by thread) holders.now }
{
    holders.iter().any(|holder| is_held_by(*holder, thread))
}

/// Whether a thread is among some waiters.
fn is_among(waiters: &[Waiter], thread: u32) -> bool
    ensures { result ≡ is_among thread waiters.now }
{
    waiters
        .iter()
        .any(|waiter| u32::from(waiter.thread) == thread)
}

/// Whether one of some threads waits at this barrier and named another count.
fn names_another(waiters: &[Waiter], barrier: u32, count: u32) -> bool
    ensures { result ≡ list_any (λ waiter. names_another barrier count waiter.place) waiters.now }
{
    waiters
        .iter()
        .any(|waiter| waiter.names_another(barrier, count))
}

/// Makes each mutex free that is held by the thread.
fn release(holders: &mut [Option<u8>], thread: u32)
    ensures { holders.new ≡ map (released_by thread) holders.old }
{
    for holder in holders.iter_mut() {
        if is_held_by(*holder, thread) {
            *holder = None;
        }
    }
}

impl Objects {
    ghost use Rattle.std.specs.Prelude.{◌≡◌, ◌<◌, false, take};
    ghost use Rattle.std.specs.Option.{option_to_list};
    ghost use Rattle.condvar_barrier.specs.Objects.{all_free, holds, holds_mutex, is_waiting, with_waiter, queue, arrivals, counts_differ};
    ghost use Rattle.condvar_barrier.specs.Rows.{replied, woke, let_pass, lock, unlock, wait, signal, broadcast, barrier, release_all, take_back};

    /// Every mutex is free, every queue and every barrier empty.
    #[tactic(auto, unfolding(crate::specs::Objects::all_free, crate::specs::Sound::AreApart))]
    pub fn new() -> Self
        ensures { result ≡ all_free }
    {
        Objects {
            holders: [None; MUTEXES],
            waiters: ArrayVec::new(),
        }
    }

    /// A copy of them.
    #[tactic(auto, unfolding(crate::specs::Sound::AreApart))]
    pub fn copied(&self) -> Self
        ensures { result ≡ self.now }
    {
        let mut waiters = ArrayVec::new();
        let added = waiters.try_extend_from_slice(self.waiters.as_slice());
        added.unwrap();
        Objects {
            holders: self.holders,
            waiters,
        }
    }

    /// The holder of each mutex, by its number, `None` if it is free.
    pub fn holders(&self) -> &[Option<u8>]
        ensures { result.now ≡ self.now.holders }
    {
        &self.holders
    }

    /// Who waits at a condition variable or a barrier, in the order in which they came.
    pub fn waiters(&self) -> &[Waiter]
        ensures { result.now ≡ self.now.waiters }
    {
        self.waiters.as_slice()
    }

    /// Whether a thread holds any mutex.
    #[tactic(auto, unfolding(crate::specs::Objects::holds))]
    pub fn holds(&self, thread: u32) -> bool
        ensures { result ≡ holds self.now thread }
    {
        is_any_held_by(&self.holders, thread)
    }

    /// Whether a thread waits at a condition variable or a barrier.
    #[tactic(auto, unfolding(crate::specs::Objects::is_waiting))]
    pub fn is_waiting(&self, thread: u32) -> bool
        ensures { result ≡ is_waiting self.now thread }
    {
        is_among(self.waiters.as_slice(), thread)
    }

    /// Takes a mutex. One that another thread holds, which no run comes to, changes its holder.
    ///
    /// BadArgument: no mutex has this number. AlreadyHeld: the caller holds it.
    #[tactic(auto, unfolding(crate::specs::Objects::with_holder, crate::specs::Rows::lock))]
    pub fn lock(&mut self, thread: u32, mutex: u32) -> Reply
        requires { thread < limit.threads }
        ensures { replied result self.new ≡ lock self.old thread mutex }
    {
        if mutex >= OBJECTS {
            return refused(Code::BadArgument);
        }
        if self.holds_mutex(thread, mutex) {
            return refused(Code::AlreadyHeld);
        }
        self.holders[mutex as usize] = Some(thread as u8);
        done(None)
    }

    /// Gives a mutex back.
    ///
    /// BadArgument: no mutex has this number. NotHolder: the caller doesn't hold it.
    #[tactic(auto, unfolding(crate::specs::Objects::with_holder, crate::specs::Rows::unlock))]
    pub fn unlock(&mut self, thread: u32, mutex: u32) -> Reply
        ensures { replied result self.new ≡ unlock self.old thread mutex }
    {
        if mutex >= OBJECTS {
            return refused(Code::BadArgument);
        }
        if !self.holds_mutex(thread, mutex) {
            return refused(Code::NotHolder);
        }
        self.holders[mutex as usize] = None;
        done(None)
    }

    /// Gives a mutex back and waits at a condition variable, after those who wait there.
    ///
    /// BadArgument: no condition variable or no mutex has this number. NotHolder: the caller doesn't hold the
    /// mutex. HoldsLock: it holds another one too.
    #[tactic(auto, unfolding(crate::specs::Objects::with_holder, crate::specs::Objects::holds, crate::specs::Objects::is_waiting, crate::specs::Rows::wait))]
    pub fn wait(&mut self, thread: u32, condition: u32, mutex: u32) -> Reply
        requires number { thread < limit.threads }
        requires idle { is_waiting self.old thread ≡ false }
        ensures { replied result self.new ≡ wait self.old thread condition mutex }
    {
        if condition >= OBJECTS || mutex >= OBJECTS {
            return refused(Code::BadArgument);
        }
        if !self.holds_mutex(thread, mutex) {
            return refused(Code::NotHolder);
        }
        let mut holders = self.holders;
        holders[mutex as usize] = None;
        if is_any_held_by(&holders, thread) {
            return refused(Code::HoldsLock);
        }
        self.holders = holders;
        let place = WaitPlace::Condition {
            condition: condition as u8,
            mutex: mutex as u8,
        };
        self.let_wait(thread, place);
        Reply::Waits
    }

    /// Wakes the first of the queue of a condition variable. The value is how many are woken, 1 or 0.
    ///
    /// BadArgument: no condition variable has this number.
    #[tactic(auto, unfolding(crate::specs::Rows::signal))]
    pub fn signal(&mut self, condition: u32) -> Answer<Option<Woken>>
        ensures { woke result.reply (option_to_list result.let_go) self.new ≡ signal self.old condition }
    {
        if condition >= OBJECTS {
            return Answer {
                reply: refused(Code::BadArgument),
                let_go: None,
            };
        }
        let first = self.first_queued(condition);
        let Some(woken) = first else {
            return Answer {
                reply: done(Some(0)),
                let_go: None,
            };
        };
        self.waiters.retain(|waiter| waiter.thread != woken.thread);
        Answer {
            reply: done(Some(1)),
            let_go: first,
        }
    }

    /// Wakes the whole queue of a condition variable. The value is how many are woken.
    ///
    /// BadArgument: no condition variable has this number.
    #[tactic(auto, unfolding(crate::specs::Rows::broadcast))]
    pub fn broadcast(&mut self, condition: u32) -> Answer<ArrayVec<Woken, WAITERS>>
        ensures { woke result.reply result.let_go.items self.new ≡ broadcast self.old condition }
    {
        if condition >= OBJECTS {
            return Answer {
                reply: refused(Code::BadArgument),
                let_go: ArrayVec::new(),
            };
        }
        let woken = self.queue(condition);
        self.waiters
            .retain(|waiter| waiter.queued_at(condition).is_none());
        Answer {
            reply: done(Some(woken.len() as u32)),
            let_go: woken,
        }
    }

    /// Comes to a barrier with a count. The one that makes the count full has the value 1 and lets the others
    /// pass, which then have the code Done and the value 0; the barrier is empty again. Everyone before it
    /// waits.
    ///
    /// BadArgument: no barrier has this number, or the count isn't 1 to 256. HoldsLock: the caller holds a
    /// mutex. CountDiffers: those who wait there named another count.
    #[tactic(auto, unfolding(crate::specs::Rows::barrier))]
    pub fn barrier(&mut self, thread: u32, number: u32, count: u32) -> Answer<ArrayVec<u8, WAITERS>>
        requires number { thread < limit.threads }
        requires idle { is_waiting self.old thread ≡ false }
        ensures { let_pass result.reply result.let_go.items self.new ≡ barrier self.old thread number count }
    {
        if number >= OBJECTS || count == 0 || count > BARRIER_COUNT {
            return lets_nobody_pass(refused(Code::BadArgument));
        }
        if self.holds(thread) {
            return lets_nobody_pass(refused(Code::HoldsLock));
        }
        if self.counts_differ(number, count) {
            return lets_nobody_pass(refused(Code::CountDiffers));
        }
        let arrived = self.arrived(number);
        if (arrived.len() as u32) + 1 < count {
            let place = WaitPlace::Barrier {
                barrier: number as u8,
                count: count as u16,
            };
            self.let_wait(thread, place);
            return lets_nobody_pass(Reply::Waits);
        }
        self.waiters
            .retain(|waiter| waiter.arrived_at(number).is_none());
        Answer {
            reply: done(Some(1)),
            let_go: arrived,
        }
    }

    /// Makes every mutex of a thread free, at its end.
    #[tactic(auto, unfolding(crate::specs::Rows::release_all))]
    pub fn release_all(&mut self, thread: u32)
        ensures { self.new ≡ release_all self.old thread }
    {
        release(&mut self.holders, thread);
    }

    /// Makes a woken thread the holder of the mutex that it gave back, at its turn. A number that no mutex has
    /// changes nothing.
    #[tactic(auto, unfolding(crate::specs::Rows::take_back, crate::specs::Objects::with_holder))]
    pub fn take_back(&mut self, thread: u32, mutex: u32)
        requires { thread < limit.threads }
        ensures { self.new ≡ take_back self.old thread mutex }
    {
        if mutex < OBJECTS {
            self.holders[mutex as usize] = Some(thread as u8);
        }
    }

    /// Whether a thread holds this mutex.
    #[tactic(auto, unfolding(crate::specs::Objects::holds_mutex))]
    fn holds_mutex(&self, thread: u32, mutex: u32) -> bool
        requires { mutex < limit.objects }
        ensures { result ≡ holds_mutex self.now thread mutex }
    {
        is_held_by(self.holders[mutex as usize], thread)
    }

    /// Lets a thread wait, after all who do.
    #[tactic(auto, unfolding(crate::specs::Objects::with_waiter, crate::specs::Objects::is_waiting))]
    fn let_wait(&mut self, thread: u32, place: WaitPlace)
        requires number { thread < limit.threads }
        requires idle { is_waiting self.old thread ≡ false }
        ensures { self.new ≡ with_waiter self.old thread place }
    {
        self.waiters.push(Waiter {
            thread: thread as u8,
            place,
        });
    }

    /// The first of the queue of a condition variable.
    #[tactic(auto, unfolding(crate::specs::Objects::queue))]
    fn first_queued(&self, condition: u32) -> Option<Woken>
        ensures { option_to_list result ≡ take 1 (queue self.now condition) }
    {
        for waiter in self.waiters.as_slice() {
            if let Some(woken) = waiter.queued_at(condition) {
                return Some(woken);
            }
        }
        None
    }

    /// The queue of a condition variable.
    #[tactic(auto, unfolding(crate::specs::Objects::queue))]
    fn queue(&self, condition: u32) -> ArrayVec<Woken, WAITERS>
        ensures { result.items ≡ queue self.now condition }
    {
        let mut queue = ArrayVec::new();
        for waiter in self.waiters.as_slice() {
            if let Some(woken) = waiter.queued_at(condition) {
                queue.push(woken);
            }
        }
        queue
    }

    /// Whether a thread waits at this barrier that named another count.
    #[tactic(auto, unfolding(crate::specs::Objects::counts_differ))]
    fn counts_differ(&self, barrier: u32, count: u32) -> bool
        ensures { result ≡ counts_differ self.now barrier count }
    {
        names_another(self.waiters.as_slice(), barrier, count)
    }

    /// The threads that wait at a barrier.
    #[tactic(auto, unfolding(crate::specs::Objects::arrivals))]
    fn arrived(&self, barrier: u32) -> ArrayVec<u8, WAITERS>
        ensures { result.items ≡ arrivals self.now barrier }
    {
        let mut arrived = ArrayVec::new();
        for waiter in self.waiters.as_slice() {
            if let Some(thread) = waiter.arrived_at(barrier) {
                arrived.push(thread);
            }
        }
        arrived
    }
}

/// What a call comes to that lets nobody pass a barrier.
fn lets_nobody_pass(reply: Reply) -> Answer<ArrayVec<u8, WAITERS>>
    ensures reply { result.reply ≡ reply }
    ensures nobody { result.let_go.items ≡ [] }
{
    Answer {
        reply,
        let_go: ArrayVec::new(),
    }
}
