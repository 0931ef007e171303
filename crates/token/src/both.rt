//! Two recorders as one.
ghost use Rattle.std.specs.Prelude.{◌≡◌, ◌⊎◌};

use crate::recorder::Recorder;
use crate::turn::Turn;
use crate::turn_fault::TurnFault;
use commit::Patch;

/// Two recorders as one.
#[derive(Drop)]
pub struct Both<A, B> {
    /// The one that is told of a turn first.
    pub first: A,
    /// The other.
    pub second: B,
}

impl<A: Recorder, B: Recorder> Recorder for Both<A, B> {
    ghost records = { λ both turns changes. A.records both.first turns changes × B.records both.second turns changes };

    ghost is_ready = { λ both addresses. A.is_ready both.first addresses × B.is_ready both.second addresses };

    ghost writes = { A.writes ⊎ B.writes };

    fn prepare(&mut self, patch: Option<&Patch>) -> Result<(), TurnFault> {
        self.first.prepare(patch)?;
        self.second.prepare(patch)
    }

    fn record(&mut self, turn: Turn) {
        self.first.record(turn);
        self.second.record(turn);
    }
}
