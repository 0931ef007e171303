//! The name of a phase, by which the ends of its jobs carry their facts. Ghost data alone.
ghost use Rattle.std.specs.Prelude.{List};
ghost use Rattle.guest_memory.specs.Memory.{Memory};
ghost use Rattle.segment.specs.declared.segment.Segment.{Segment};

use std::marker::Brand;

/// Which jobs and which memory the ends are of that the host threads of a call tell each other. Each call picks them.
pub trait OfPhase {
    ghost jobs: { List Segment };

    ghost memory: { Memory };
}

impl OfPhase for Brand {
    ghost use Rattle.std.specs.Prelude.{[], None};

    ghost jobs = { [] };

    ghost memory = { λ address. None };
}
