//! Whether a stop ends the run.
ghost use Rattle.std.specs.Prelude.{◌≡◌};
ghost use Rattle.schedule.specs.Verdict as spec;

use abi::CallKind;
use hart::{Hart, Stop};

/// Whether a segment that stopped so, with this hart, ends the run: by a trap, or by the call exit.
#[tactic(auto, unfolding(crate::specs::Verdict::ends_run))]
pub fn ends_run(hart: &Hart, stop: Stop) -> bool
    ensures { result ≡ spec.ends_run hart.now stop }
{
    match stop {
        Stop::Trap(_) => true,
        Stop::Ecall => CallKind::ends_run(hart.reg(17)),
        Stop::Quantum => false,
    }
}
