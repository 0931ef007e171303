//! The flag by which the caller stops its workers. Touched by single atomic steps.
use std::sync::atomic::{AtomicBool, Ordering};

/// What the caller tells all workers at once. No contract speaks of it: a worker that reads it late works in vain.
#[derive(Drop)]
pub(crate) struct StopFlag {
    is_set: AtomicBool,
}

impl StopFlag {
    pub(crate) fn new() -> Self {
        StopFlag {
            is_set: AtomicBool::new(false),
        }
    }

    /// Stops the workers.
    pub(crate) fn set(&self) {
        self.is_set.store(true, Ordering::SeqCst);
    }

    /// Whether the workers are stopped.
    pub(crate) fn is_set(&self) -> bool {
        self.is_set.load(Ordering::SeqCst)
    }
}
