//! The recorder that keeps nothing.
ghost use Rattle.std.specs.Prelude.{◌≡◌};

use crate::recorder::Recorder;
use crate::turn::Turn;
use crate::turn_fault::TurnFault;
use commit::Patch;

/// Records nothing, and takes no memory.
#[derive(Clone, Copy, Debug)]
pub struct NoRecord;

impl Recorder for NoRecord {
    ghost records = { λ _ _ _. Unit {0} };

    ghost is_ready = { λ _ _. Unit {0} };

    ghost writes = { ⊥ };

    fn prepare(&mut self, _patch: Option<&Patch>) -> Result<(), TurnFault> {
        Ok(())
    }

    fn record(&mut self, _turn: Turn) {}
}
