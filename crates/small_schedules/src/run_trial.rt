//! Tries schedules by running a program.
ghost use Rattle.std.specs.Prelude.{◌≡◌, ◌≢◌, true, false};
ghost use Rattle.explored_runs.specs.Runs.{setup_by};
ghost use Rattle.shuffled_phases.specs.Config.{is_valid};
ghost use Rattle.small_schedules.specs.Outcomes.{EndsOrNot};

use crate::trial::Trial;
use elf32_reader::Image;
use explored_runs::run_shuffled;
use runtime::{Config, RunOutcome};
use shuffled_phases::Shuffle;
use std::alloc::{AllocError, Global};
use std::sync::Wait;
use std::thread::Threads;

/// Tries schedules by running a program on an input, on the calling host thread.
#[derive(Drop)]
pub(crate) struct RunTrial<'a> {
    pub(crate) alloc: Global,
    pub(crate) image: &'a Image,
    pub(crate) input: &'a [u8],
    pub(crate) config: &'a Config,
    /// How a run ends that fails.
    pub(crate) outcome: RunOutcome,
    ghost valid: { is_valid config.now ≡ true },
}

/// Whether two runs ended alike.
fn is_same(one: RunOutcome, other: RunOutcome) -> bool
    ensures same { result ≡ true → one ≡ other }
    ensures other { result ≡ false → one ≢ other }
{
    one == other
}

impl Trial for RunTrial<'_> {
    ghost tells = { λ trial shuffle. EndsOrNot (setup_by trial.image.now trial.input.now trial.config.now shuffle) trial.outcome };

    fn fails<R: Threads + Wait + Sync>(
        &self,
        rt: &R,
        shuffle: Shuffle,
    ) -> Result<bool, AllocError> {
        let end = run_shuffled(rt, self.alloc, self.image, self.input, self.config, shuffle)?;
        Ok(is_same(end.outcome, self.outcome))
    }
}
