//! How long the gates of these tests hold a worker. It reads the clock.

use crate::phases::gates::Flag;
use anyhow::Result;
use std::hint::spin_loop;
use std::rt::Clock;
use std::time::Instant;

/// For how many seconds after its start a gate holds workers. A busy machine may keep a worker from its processor for whole
/// seconds. The runner ends a test after 60 seconds.
const SECONDS: u64 = 20;

/// The time that workers have to come to one another, from its start on.
#[derive(Drop)]
pub struct Patience<'a, R> {
    rt: &'a R,
    start: Instant,
}

impl<'a, R: Clock> Patience<'a, R> {
    /// The time that starts at once.
    pub fn new(rt: &'a R) -> Result<Self> {
        Ok(Patience {
            rt,
            start: Instant::now(rt)?,
        })
    }

    /// Whether the time is up, or the clock can't be read.
    fn is_over(&self) -> bool {
        match self.start.elapsed(self.rt) {
            Ok(time) => time.as_secs() >= SECONDS,
            Err(_) => true,
        }
    }

    /// Waits until a flag is up. Whether it came up in time.
    pub fn wait_for(&self, flag: &Flag) -> bool {
        for _ in 0..u64::MAX {
            if flag.is_up() {
                return true;
            }
            if self.is_over() {
                return false;
            }
            spin_loop();
        }
        false
    }
}
