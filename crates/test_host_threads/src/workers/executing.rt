//! Runs with two workers whose gate reads a clock: a job is executed by the host thread that drew it, before that one's
//! next job, and its end is used.

use crate::workers::seen::{BEFORE, Seen, is_reached, reach};
use data_guest_programs::LATE_TRAP;
use runtime::{Config, Gate, MAX_BOUND, RunOutcome, run};
use std::rt::Clock;
use std::sync::atomic::{AtomicU64, Ordering};
use std::test::Fail;

/// How often the run is made.
const TIMES: u32 = 20;

/// What the 999,427 instructions of job 1 take at least, in nanoseconds: ten of them in each.
const LEAST: u64 = 100_000;

/// Job 0 of phase 2 waits until another host thread has come to job 2, so that one had job 1 before it. Times are in
/// nanoseconds since the start.
#[derive(Drop)]
struct Timing<'a, R> {
    seen: Seen<'a, R>,
    /// When the other host thread came to job 1.
    begun: AtomicU64,
    /// When it came to its next job.
    over: AtomicU64,
    /// When thread 0's turn of phase 2 was done.
    turned: AtomicU64,
    /// How long after that the turn of job 1 was done.
    between: AtomicU64,
}

impl<'a, R: Clock> Timing<'a, R> {
    fn of(rt: &'a R) -> Result<Self, Fail> {
        Ok(Timing {
            seen: Seen::nothing(rt)?,
            begun: AtomicU64::new(0),
            over: AtomicU64::new(0),
            turned: AtomicU64::new(0),
            between: AtomicU64::new(u64::MAX),
        })
    }

    fn keep_now(&self, place: &AtomicU64) {
        place.store(self.seen.now(), Ordering::SeqCst);
    }

    /// How long the other host thread was at job 1.
    fn at_job(&self) -> u64 {
        let begun = self.begun.load(Ordering::SeqCst);
        self.over.load(Ordering::SeqCst).saturating_sub(begun)
    }

    /// Whether the turn of job 1 took less than a tenth of the job, so that nobody executed the job once more for it.
    fn turned_at_once(&self) -> bool {
        self.between.load(Ordering::SeqCst) < self.at_job() / 10
    }
}

impl<'a, R: Clock> Gate for Timing<'a, R> {
    fn pass(&self, _worker: u32, job: u32) {
        let seen = &self.seen;
        if !seen.has_done(BEFORE) {
            return;
        }
        match job {
            0 => seen.wait_until(|| is_reached(&seen.first)),
            1 => self.keep_now(&self.begun),
            _ => {
                self.keep_now(&self.over);
                reach(&seen.first);
            }
        }
    }

    fn turned(&self, thread: u32) {
        let seen = &self.seen;
        if thread == 1 {
            let since = self.turned.load(Ordering::SeqCst);
            let between = seen.now().saturating_sub(since);
            self.between.store(between, Ordering::SeqCst);
        } else if seen.has_done(BEFORE) {
            self.keep_now(&self.turned);
        }
        seen.count_turn();
    }
}

#[test]
fn a_job_is_executed_where_it_is_drawn_and_nowhere_else(rt: HostRuntime) -> Result<(), Fail> {
    let file = LATE_TRAP.file(rt.alloc())?;
    let config = Config {
        bound: MAX_BOUND,
        quantum: None,
        shuffle: None,
        workers: 2,
    };
    let mut at_once = false;
    for _ in 0..TIMES {
        let gate = Timing::of(&rt)?;
        let report = run(&rt, rt.alloc(), &file, &[], &config, &gate)?;
        assert!(rt; is_trap_of(&report.outcome, 1));
        assert!(rt; !is_reached(&gate.seen.missed));
        assert!(rt; gate.at_job() >= LEAST);
        if gate.turned_at_once() {
            at_once = true;
        }
    }
    assert!(rt; at_once);
    Ok(())
}

/// Whether a run ended with a trap of this thread.
fn is_trap_of(outcome: &RunOutcome, number: u32) -> bool {
    match outcome {
        RunOutcome::Trap { thread, .. } => *thread == number,
        _ => false,
    }
}
