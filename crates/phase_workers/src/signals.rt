//! What the caller and its workers see of each other without a lock: the stop flag, and counts of what was sent. Touched by single atomic steps.
use crate::stop_flag::StopFlag;
use crossbeam_channel::Receiver;
use std::hint::spin_loop;
use std::sync::Wait;
use std::sync::atomic::{AtomicU32, Ordering};

/// How often it is looked whether something has come, before whoever waits for it sleeps.
const LOOKS: u32 = 2000;

/// Counts what was sent. No contract speaks of it: who reads it late looks late, and who looks in vain finds nothing.
#[derive(Drop)]
pub(crate) struct SendCount {
    sent: AtomicU32,
}

impl SendCount {
    fn new() -> Self {
        SendCount {
            sent: AtomicU32::new(0),
        }
    }

    /// Says that something was sent.
    pub(crate) fn add(&self) {
        let _ = self.sent.fetch_add(1, Ordering::SeqCst);
    }

    /// How often something was sent.
    fn count(&self) -> u32 {
        self.sent.load(Ordering::SeqCst)
    }
}

/// What the caller and its workers see of each other.
#[derive(Drop)]
pub(crate) struct Signals {
    pub(crate) stop_flag: StopFlag,
    /// How many offers the workers were sent.
    pub(crate) offers: SendCount,
    /// How many messages the caller was sent.
    pub(crate) posts: SendCount,
}

impl Signals {
    /// The workers aren't stopped, and nothing was sent.
    pub(crate) fn new() -> Self {
        Signals {
            stop_flag: StopFlag::new(),
            offers: SendCount::new(),
            posts: SendCount::new(),
        }
    }

    /// What has been sent, if some comes within a while and the workers aren't stopped. It takes the channel's lock only after a send.
    pub(crate) fn look_for<T: Drop, R: Wait>(
        &self,
        rt: &R,
        sends: &SendCount,
        received: &Receiver<T>,
    ) -> Option<T> {
        let mut seen = None;
        for _ in 0..LOOKS {
            if self.stop_flag.is_set() {
                return None;
            }
            let count = Some(sends.count());
            if seen != count {
                seen = count;
                if let Ok(sent) = received.try_recv(rt) {
                    return Some(sent);
                }
            }
            spin_loop();
        }
        None
    }
}
