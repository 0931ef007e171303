//! What is known of the ends that the host threads of a run tell each other. Ghost data alone.

use crate::of_run::OfRun;
use phase_workers::EndFacts;
use std::marker::PhantomData;

/// The ends of a run: in a phase, the job of a thread's number is that thread's segment there.
pub struct EndsOfRun<B: OfRun> {
    of: PhantomData<B>,
}

impl<B: OfRun> EndFacts for EndsOfRun<B> {
    ghost use Rattle.worker_pool.specs.Ends.{IsEndIn};

    ghost is_end_of = { λ phase thread end. IsEndIn B.setup phase thread end };
}
