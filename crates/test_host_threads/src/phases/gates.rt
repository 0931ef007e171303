//! Gates that hold workers until others have come.

use crate::phases::patience::Patience;
use anyhow::Result;
use phase_jobs::Gate;
use std::rt::Clock;
use std::sync::atomic::{AtomicBool, AtomicU32, Ordering};

/// A flag that one worker raises and others wait for.
#[derive(Drop)]
pub struct Flag {
    up: AtomicBool,
}

impl Flag {
    pub fn new() -> Self {
        Flag {
            up: AtomicBool::new(false),
        }
    }

    pub fn raise(&self) {
        self.up.store(true, Ordering::SeqCst);
    }

    pub fn is_up(&self) -> bool {
        self.up.load(Ordering::SeqCst)
    }
}

/// The gate of three jobs and two workers, of which only one may go on: jobs 0 and 1 wait for each other, and then one of
/// them waits for job 2. So jobs 0 and 1 have different workers, and the one that goes on first draws job 2, whichever it is.
#[derive(Drop)]
pub struct Tie<'a, R> {
    patience: Patience<'a, R>,
    /// Job 0 came, job 1, and job 2.
    first: Flag,
    second: Flag,
    third: Flag,
    late: Flag,
    /// The job that waits for job 2.
    held: u32,
}

impl<'a, R: Clock> Tie<'a, R> {
    pub fn new(rt: &'a R, held: u32) -> Result<Self> {
        Ok(Tie {
            patience: Patience::new(rt)?,
            first: Flag::new(),
            second: Flag::new(),
            third: Flag::new(),
            late: Flag::new(),
            held,
        })
    }

    /// Whether a worker waited in vain, or came too early.
    pub fn has_failed(&self) -> bool {
        self.late.is_up()
    }

    /// Raises a failure where this doesn't hold.
    fn demand(&self, is: bool) {
        if !is {
            self.late.raise();
        }
    }
}

impl<'a, R: Clock> Gate for Tie<'a, R> {
    fn pass(&self, _worker: u32, job: u32) {
        match job {
            0 => {
                self.first.raise();
                self.demand(self.patience.wait_for(&self.second));
            }
            1 => {
                self.second.raise();
                self.demand(self.patience.wait_for(&self.first));
            }
            _ => {
                self.demand(self.first.is_up() && self.second.is_up());
                self.third.raise();
            }
        }
        if job == self.held {
            self.demand(self.patience.wait_for(&self.third));
        }
    }
}

/// The gate of two jobs and two workers: job 0 waits until job 1 was drawn, so the other worker has that.
#[derive(Drop)]
pub struct Waiting<'a, R> {
    patience: Patience<'a, R>,
    second: Flag,
    late: Flag,
}

impl<'a, R: Clock> Waiting<'a, R> {
    pub fn new(rt: &'a R) -> Result<Self> {
        Ok(Waiting {
            patience: Patience::new(rt)?,
            second: Flag::new(),
            late: Flag::new(),
        })
    }

    /// Whether job 0 waited in vain.
    pub fn has_failed(&self) -> bool {
        self.late.is_up()
    }
}

impl<'a, R: Clock> Gate for Waiting<'a, R> {
    fn pass(&self, _worker: u32, job: u32) {
        if job > 0 {
            self.second.raise();
        } else if !self.patience.wait_for(&self.second) {
            self.late.raise();
        }
    }
}

/// A gate at which all workers meet at their first jobs, and one of them is then held until all jobs were drawn.
#[derive(Drop)]
pub struct Holding<'a, R> {
    patience: Patience<'a, R>,
    workers: u32,
    jobs: u32,
    held: u32,
    passes: AtomicU32,
    met: Flag,
    drawn: Flag,
    late: Flag,
}

impl<'a, R: Clock> Holding<'a, R> {
    pub fn new(rt: &'a R, workers: u32, jobs: u32, held: u32) -> Result<Self> {
        Ok(Holding {
            patience: Patience::new(rt)?,
            workers,
            jobs,
            held,
            passes: AtomicU32::new(0),
            met: Flag::new(),
            drawn: Flag::new(),
            late: Flag::new(),
        })
    }

    /// Whether a worker waited in vain.
    pub fn has_failed(&self) -> bool {
        self.late.is_up()
    }
}

impl<'a, R: Clock> Gate for Holding<'a, R> {
    fn pass(&self, worker: u32, _job: u32) {
        let before = self.passes.fetch_add(1, Ordering::SeqCst);
        if Some(before) == self.workers.checked_sub(1) {
            self.met.raise();
        }
        if Some(before) == self.jobs.checked_sub(1) {
            self.drawn.raise();
        }
        let patience = &self.patience;
        let in_time = patience.wait_for(&self.met)
            && (worker != self.held || patience.wait_for(&self.drawn));
        if !in_time {
            self.late.raise();
        }
    }
}

/// A gate that raises a flag at a pass, counted from 1.
#[derive(Drop)]
pub struct Counting {
    at: u32,
    passes: AtomicU32,
    pub reached: Flag,
}

impl Counting {
    pub fn new(at: u32) -> Self {
        Counting {
            at,
            passes: AtomicU32::new(0),
            reached: Flag::new(),
        }
    }
}

impl Gate for Counting {
    fn pass(&self, _worker: u32, _job: u32) {
        let before = self.passes.fetch_add(1, Ordering::SeqCst);
        if Some(before) == self.at.checked_sub(1) {
            self.reached.raise();
        }
    }
}
