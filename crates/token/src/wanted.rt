//! A recorder that is there only if it is wanted.
ghost use Rattle.std.specs.Prelude.{◌≡◌, IfSome, Option, is_some, true};

use crate::is_wanted::IsWanted;
use crate::recorder::Recorder;
use crate::turn::Turn;
use crate::turn_fault::TurnFault;
use commit::Patch;
use std::marker::{Model, PhantomData};

/// A recorder where it is wanted. Where it isn't nothing is recorded, and no memory taken.
#[derive(Drop)]
pub struct Wanted<B: IsWanted, R> {
    /// The recorder, where it is wanted.
    recorder: Option<R>,
    wanted_by: PhantomData<B>,
}

impl<B: IsWanted, R> Model for Wanted<B, R> {
    ghost Value = { Option R };

    ghost view = { λ wanted. wanted.recorder };

    ghost invariant = { λ wanted. is_some wanted.recorder ≡ B.is_wanted };
}

impl<B: IsWanted, R: Recorder> Wanted<B, R> {
    /// This recorder, or none.
    pub fn new(recorder: Option<R>) -> Self
        requires { is_some recorder ≡ B.is_wanted }
        ensures { result ≡ recorder }
    {
        Wanted {
            recorder,
            wanted_by: PhantomData,
        }
    }

    /// The recorder, where it is wanted.
    pub fn into_recorder(self) -> Option<R>
        ensures recorder { result ≡ self }
        ensures wanted { is_some result ≡ B.is_wanted }
    {
        let Wanted {
            recorder,
            wanted_by: _wanted_by,
        } = self;
        recorder
    }
}

impl<B: IsWanted, R: Recorder> Recorder for Wanted<B, R> {
    ghost records = { λ wanted turns changes. IfSome wanted (λ recorder. R.records recorder turns changes) };

    ghost is_ready = { λ wanted addresses. IfSome wanted (λ recorder. R.is_ready recorder addresses) };

    ghost writes = { (B.is_wanted ≡ true) × R.writes };

    fn prepare(&mut self, patch: Option<&Patch>) -> Result<(), TurnFault> {
        match &mut self.recorder {
            Some(recorder) => recorder.prepare(patch),
            None => Ok(()),
        }
    }

    fn record(&mut self, turn: Turn) {
        match &mut self.recorder {
            Some(recorder) => recorder.record(turn),
            None => {}
        }
    }
}
