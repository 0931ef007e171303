//! Which runs fail.
ghost use Rattle.std.specs.Prelude.{◌≡◌};
ghost use Rattle.explored_runs.specs.Failing as spec;

use token::RunOutcome;

/// Whether a run fails that ends so: by a trap, by a deadlock, or with a status other than 0. A status is what the system keeps of it, its
/// low 8 bits.
pub fn fails(outcome: RunOutcome) -> bool
    ensures { result ≡ spec.fails outcome }
{
    match outcome {
        RunOutcome::Exit(status) | RunOutcome::Finished(status) => status % 256 != 0,
        RunOutcome::Trap { .. } | RunOutcome::Deadlock => true,
    }
}
