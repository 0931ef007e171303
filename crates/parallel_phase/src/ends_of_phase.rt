//! What is known of the ends that the host threads of one phase tell each other. Ghost data alone.

use crate::of_phase::OfPhase;
use phase_workers::EndFacts;
use std::marker::PhantomData;

/// The ends of a phase, whose jobs have their numbers as names.
pub struct EndsOfPhase<J: OfPhase> {
    of: PhantomData<J>,
}

impl<J: OfPhase> EndFacts for EndsOfPhase<J> {
    ghost use Rattle.phase_jobs.specs.Slices.{IsEndOfJob};

    ghost is_end_of = { λ phase number end. IsEndOfJob J.jobs J.memory number end };
}
