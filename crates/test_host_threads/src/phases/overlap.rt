//! A gate that holds a worker until a turn is taken.
use crate::phases::gates::Flag;
use crate::phases::patience::Patience;
use anyhow::Result;
use phase_jobs::Gate;
use std::rt::Clock;
use std::sync::atomic::{AtomicU64, Ordering};

/// How many turns the first phase of `race` has, and the next one.
const FIRST: u64 = 4;

const SECOND: u64 = 3;

/// The number of the caller among the workers.
const CALLER: u32 = 0;

/// A gate of `race` with two workers. In phase 2 the caller waits until the other worker has come to a job above 0, or until
/// the first turn of that phase. The other worker waits there for that turn.
#[derive(Drop)]
pub struct Overlap<'a, R> {
    patience: Patience<'a, R>,
    turns: AtomicU64,
    came: Flag,
    turned: Flag,
    late: Flag,
}

impl<'a, R: Clock> Overlap<'a, R> {
    pub fn new(rt: &'a R) -> Result<Self> {
        Ok(Overlap {
            patience: Patience::new(rt)?,
            turns: AtomicU64::new(0),
            came: Flag::new(),
            turned: Flag::new(),
            late: Flag::new(),
        })
    }

    /// Whether the other worker came to a job above 0.
    pub fn has_met(&self) -> bool {
        self.came.is_up()
    }

    /// Whether a worker waited in vain.
    pub fn has_failed(&self) -> bool {
        self.late.is_up()
    }

    /// Raises a failure where this doesn't hold.
    fn demand(&self, is: bool) {
        if !is {
            self.late.raise();
        }
    }
}

impl<'a, R: Clock> Gate for Overlap<'a, R> {
    fn pass(&self, worker: u32, job: u32) {
        let done = self.turns.load(Ordering::SeqCst);
        if done < FIRST || done >= FIRST + SECOND {
            return;
        }
        if worker == CALLER {
            self.demand(self.turned.is_up() || self.patience.wait_for(&self.came));
        } else if job > 0 {
            self.came.raise();
            self.demand(self.patience.wait_for(&self.turned));
        }
    }

    fn turned(&self, _thread: u32) {
        let before = self.turns.fetch_add(1, Ordering::SeqCst);
        if before == FIRST {
            self.turned.raise();
        }
    }
}
