//! Whether a recorder is wanted, fixed by type for a whole run.
ghost use Rattle.std.specs.Prelude.{Bool};

use std::marker::Brand;

/// Whether a recorder is wanted. Each run picks it once, so that it is known at the run's end as it was at the start.
pub trait IsWanted {
    ghost is_wanted: { Bool };
}

impl IsWanted for Brand {
    ghost use Rattle.std.specs.Prelude.{false};

    ghost is_wanted = { false };
}
