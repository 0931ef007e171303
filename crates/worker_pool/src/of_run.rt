//! The name of a run, by which messages of its workers carry their facts. Ghost data alone.
ghost use Rattle.token.specs.Setup.{Setup};

use std::marker::Brand;

/// Which run it is, by what the run was given. Each run picks it once, and what its host threads tell each other is
/// of this run.
pub trait OfRun {
    ghost setup: { Setup };
}

impl OfRun for Brand {
    ghost use Rattle.std.specs.Prelude.{None, []};

    ghost setup = { record { entry = 0; memory = λ _. None; input = []; bound = 0; quantum = None; shuffle = None } };
}
