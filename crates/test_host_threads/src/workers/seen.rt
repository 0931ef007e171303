//! What the gates of these tests keep of a run, and how they wait for one another.

use std::hint::spin_loop;
use std::rt::Clock;
use std::sync::atomic::{AtomicBool, AtomicU64, Ordering};
use std::test::Fail;
use std::time::Instant;

/// Until when in a run its host threads wait for one another: 20 seconds after its start, in nanoseconds. A busy machine
/// may keep a host thread from its processor for whole seconds. The runner ends a test after 60 seconds.
const PATIENCE: u64 = 20_000_000_000;

/// How many rounds a host thread waits so that another one goes on some slices with its job.
const WHILE: u32 = 100_000;

/// How many turns phase 1 has, in each of the programs.
pub const BEFORE: u64 = 4;

/// What has happened in a run: how many turns were done, where the host threads came, and whether one of them waited
/// in vain.
#[derive(Drop)]
pub struct Seen<'a, R> {
    rt: &'a R,
    start: Instant,
    turns: AtomicU64,
    /// A host thread has come to the one place that others wait for.
    pub first: AtomicBool,
    /// A host thread has come to the other one.
    pub second: AtomicBool,
    /// A host thread has come to a third one.
    pub third: AtomicBool,
    /// A wait was in vain.
    pub missed: AtomicBool,
}

impl<'a, R: Clock> Seen<'a, R> {
    /// What has happened before a run begins, which it does at once.
    pub fn nothing(rt: &'a R) -> Result<Self, Fail> {
        Ok(Seen {
            rt,
            start: Instant::now(rt)?,
            turns: AtomicU64::new(0),
            first: AtomicBool::new(false),
            second: AtomicBool::new(false),
            third: AtomicBool::new(false),
            missed: AtomicBool::new(false),
        })
    }

    /// The time since the start of the run, in nanoseconds. It is the greatest number if the clock can't be read.
    pub fn now(&self) -> u64 {
        match self.start.elapsed(self.rt) {
            Ok(time) => u64::try_from(time.as_nanos()).unwrap_or(u64::MAX),
            Err(_) => u64::MAX,
        }
    }

    /// Whether so many turns were done.
    pub fn has_done(&self, turns: u64) -> bool {
        self.turns.load(Ordering::SeqCst) >= turns
    }

    /// One turn more was done.
    pub fn count_turn(&self) {
        self.turns.fetch_add(1, Ordering::SeqCst);
    }

    /// Waits until a test holds. If it doesn't in time, the wait was in vain, and that is kept.
    pub fn wait_until<F: Fn() -> bool>(&self, test: F)
        requires { F.IsAlwaysCallable test }
    {
        for _ in 0..u64::MAX {
            if test() {
                return;
            }
            if self.now() >= PATIENCE {
                reach(&self.missed);
                return;
            }
            spin_loop();
        }
    }
}

/// Says that a host thread has come here.
pub fn reach(place: &AtomicBool) {
    place.store(true, Ordering::SeqCst);
}

/// Whether a host thread has come here.
pub fn is_reached(place: &AtomicBool) -> bool {
    place.load(Ordering::SeqCst)
}

/// Waits a while, whatever happens.
pub fn linger() {
    for _ in 0..WHILE {
        spin_loop();
    }
}
