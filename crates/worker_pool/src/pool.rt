//! The caller's side of the pool: gives the end of the needed segment, whoever executed it. May wait for a worker.
ghost use Rattle.std.specs.Prelude.{◌≡◌, ◌+◌, ◌<◌, ◌≤◌, true, IfOk, IfSome, IfNone};
ghost use Rattle.claim_table.specs.Logs.{most_seats};
ghost use Rattle.segment.specs.Ends.{IsEndOf};
ghost use Rattle.token.specs.Point.{need_at};
ghost use Rattle.token.specs.RunInTurn.{point_of};
ghost use Rattle.token.specs.Serial.{IsAskedFor};
ghost use Rattle.worker_pool.specs.Jobs.{IsAsked, NeedsEnd};
ghost use Rattle.worker_pool.specs.Ends.{IsEndIn};

use crate::ends_of_run::EndsOfRun;
use crate::first_job::FirstJob;
use crate::of_run::OfRun;
use crate::opening::share_out;
use phase_jobs::Gate;
use phase_workers::{Dispatcher, WorkerChannels};
use segment::SegmentEnd;
use std::alloc::{AllocError, Global};
use std::marker::Model;
use std::sync::Wait;
use token::{Need, Recorder, Serial, Work};

/// The number of the caller among the host threads of a run.
const CALLER: u32 = 0;

/// How many instructions of a job the caller executes alone before it shares its phase out. A job with so many is long.
const FIRST: u64 = 4096;

/// How many phases are shared out at once after a long job.
const CREDIT: u32 = 16;

/// The host threads of a run, as the caller has them: it gives the end of each segment that the run needs next,
/// whichever host thread executed it.
#[derive(Drop)]
pub struct Pool<B: OfRun> {
    alloc: Global,
    /// How many host threads there may be, the caller counted.
    most: u32,
    /// How many host threads there are, the caller counted.
    hands: u32,
    dispatcher: Dispatcher<EndsOfRun<B>>,
    /// The phase that the dispatcher and `taken` speak of.
    phase: u64,
    /// How many of its jobs the caller took without sharing it out.
    taken: u32,
    /// Whether the gate was told of the job after them.
    is_told: bool,
    /// How many phases more are shared out at once.
    credit: u32,
}

impl<B: OfRun> Model for Pool<B> {
    ghost use Rattle.std.specs.Prelude.{◌<◌, ◌≤◌};
    ghost use Rattle.claim_table.specs.Logs.{most_seats};
    ghost use Rattle.worker_pool.specs.Jobs.{PoolState};

    ghost Value = { PoolState };

    ghost view = { λ p. record { most = p.most; hands = p.hands } };

    ghost invariant = { λ p. (0 < p.most) × (p.most ≤ most_seats) };
}

impl<B: OfRun + Send + Sync> Pool<B> {
    /// The caller alone, who may hire workers up to so many host threads in all, 1 to 64. So many phases are shared out
    /// at once, however short their jobs are.
    pub fn new(alloc: Global, most: u32, credit: u32) -> Self
        requires { (0 < most) × (most ≤ most_seats) }
        ensures { result ≡ record { most = most; hands = 1 } }
    {
        Pool {
            alloc,
            most,
            hands: 1,
            dispatcher: Dispatcher::new(),
            phase: 0,
            taken: 0,
            is_told: false,
            credit,
        }
    }

    /// Whether the present phase is to be shared out, has work for one host thread more, and there may be one.
    fn wants_worker<K: Recorder>(&self, serial: &Serial<K>) -> bool
        ensures { result ≡ true → self.now.hands < self.now.most }
    {
        let hands = self.hands as usize;
        self.credit > 0
            && self.hands < self.most
            && serial.list().len() > hands
            && serial.jobs().len() > hands
    }

    /// One host thread more serves.
    pub fn add_worker(&mut self)
        requires { self.old.hands < self.old.most }
        ensures { self.new ≡ record self.old { hands = self.old.hands + 1 } }
    {
        self.hands += 1;
    }

    /// What the workers of the run share. Each works once somebody lets it serve.
    pub fn hire(&mut self) -> Result<WorkerChannels<EndsOfRun<B>>, AllocError>
        ensures { self.new ≡ self.old }
    {
        self.dispatcher.hire(self.alloc)
    }

    /// Tells the workers that the run has ended.
    pub fn dismiss(&mut self)
        ensures { self.new ≡ self.old }
    {
        self.dispatcher.dismiss();
    }

    /// Comes to the phase of a run, and answers whether nobody but the caller has to do with it: there may be no worker, or
    /// there is no second job.
    pub fn is_alone<K: Recorder>(&mut self, serial: &Serial<K>) -> bool
        ensures { self.new ≡ self.old }
    {
        self.come_to(serial.phase());
        !self.dispatcher.is_shared_out() && (self.most < 2 || serial.list().len() < 2)
    }

    /// The end of the segment that a run needs next, on the memory that its phase began with. The caller executes it.
    pub fn segment_alone<K: Recorder, G: Gate>(
        &mut self,
        serial: &Serial<K>,
        work: &Work,
        gate: &G,
    ) -> Result<SegmentEnd, AllocError>
        ensures end { IfOk result (IsEndOf (point_of serial.now).base work.now.segment) }
        ensures same { self.new ≡ self.old }
    {
        self.tell(gate);
        self.count();
        work.segment.run(serial.base())
    }

    /// The end of the segment that a run needs next, on the memory that its phase began with. The caller works at jobs of
    /// the phase until it is there. None if a worker is wanted first: the segment is long, and the phase has work for one
    /// host thread more. `is_alone` has been asked at this turn.
    pub fn segment<R: Wait, K: Recorder, G: Gate>(
        &mut self,
        rt: &R,
        serial: &Serial<K>,
        work: &Work,
        gate: &G,
    ) -> Result<Option<SegmentEnd>, AllocError>
        requires setup { (point_of serial.now).setup ≡ B.setup }
        requires asked { IsAskedFor serial.now }
        requires need { need_at (point_of serial.now) ≡ Need.Segment work.now }
        ensures end { IfOk result (λ end. IfSome end (IsEndOf (point_of serial.now).base work.now.segment)) }
        ensures wants { IfOk result (λ end. IfNone end (self.old.hands < self.old.most)) }
        ensures same { self.new ≡ self.old }
    {
        if self.credit > 0 || self.dispatcher.is_shared_out() {
            return self.segment_beside(rt, serial, work, gate);
        }
        self.tell(gate);
        let end = work.segment.run_within(serial.base(), FIRST)?;
        if end.is_some() {
            self.count();
            return Ok(end);
        }
        self.credit = CREDIT;
        self.segment_beside(rt, serial, work, gate)
    }

    /// The end of the segment that the run needs next, with its phase shared out. None if a worker is wanted first.
    #[inline(never)]
    fn segment_beside<R: Wait, K: Recorder, G: Gate>(
        &mut self,
        rt: &R,
        serial: &Serial<K>,
        work: &Work,
        gate: &G,
    ) -> Result<Option<SegmentEnd>, AllocError>
        requires { NeedsEnd B.setup serial.now work.now }
        ensures end { IfOk result (λ end. IfSome end (IsEndOf (point_of serial.now).base work.now.segment)) }
        ensures wants { IfOk result (λ end. IfNone end (self.old.hands < self.old.most)) }
        ensures same { self.new ≡ self.old }
    {
        if !self.dispatcher.is_shared_out() {
            if self.wants_worker(serial) {
                return Ok(None);
            }
            self.share_on_credit(rt, serial, gate, work.thread);
        }
        match self.awaited(rt, gate, serial.phase(), work.thread) {
            Some(end) => Ok(Some(end)),
            None => Ok(Some(work.segment.run(serial.base())?)),
        }
    }

    /// The run is in this phase.
    fn come_to(&mut self, phase: u64)
        ensures { self.new ≡ self.old }
    {
        if self.phase != phase {
            self.phase = phase;
            self.taken = 0;
            self.is_told = false;
            self.dispatcher.clear();
        }
    }

    /// Tells the gate of the next job that the caller takes without sharing its phase out, unless it was told of it.
    fn tell<G: Gate>(&mut self, gate: &G)
        ensures { self.new ≡ self.old }
    {
        if !self.is_told {
            self.is_told = true;
            gate.pass(CALLER, self.taken);
        }
    }

    /// Counts that job.
    fn count(&mut self)
        ensures { self.new ≡ self.old }
    {
        self.taken = self.taken.saturating_add(1);
        self.is_told = false;
    }

    /// Shares the present phase out, from this thread on. If that can't be done, the caller takes the thread's job.
    fn share_on_credit<R: Wait, K: Recorder, G: Gate>(
        &mut self,
        rt: &R,
        serial: &Serial<K>,
        gate: &G,
        thread: u32,
    )
        requires { IsAsked B.setup serial.now }
        ensures { self.new ≡ self.old }
    {
        self.credit = self.credit.saturating_sub(1);
        let from = FirstJob {
            thread,
            told: self.is_told.then_some(self.taken),
        };
        let dispatcher = &mut self.dispatcher;
        if !share_out(rt, self.alloc, dispatcher, serial, self.most, from).unwrap_or(false) {
            self.tell(gate);
            self.count();
        }
    }

    /// The end of a thread's segment in a phase, once it is there. None where it doesn't come.
    fn awaited<R: Wait, G: Gate>(
        &mut self,
        rt: &R,
        gate: &G,
        phase: u64,
        thread: u32,
    ) -> Option<SegmentEnd>
        ensures end { IfSome result (IsEndIn B.setup phase thread) }
        ensures same { self.new ≡ self.old }
    {
        let end = self.dispatcher.awaited(rt, gate, phase, thread)?;
        if end.count >= FIRST {
            self.credit = CREDIT;
        }
        Some(end)
    }
}
