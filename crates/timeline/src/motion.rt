//! What the turns of a run come to that tells nobody of them.
ghost use Rattle.std.specs.Prelude.{◌≡◌};
ghost use Rattle.std.specs.Result.{result_ok};

use std::alloc::AllocError;
use token::TurnFault;

/// What a turn, or a motion over turns, comes to in a run that tells nobody of its turns: it fails only if memory is refused.
pub fn moved<T>(outcome: Result<T, TurnFault>) -> Result<T, AllocError>
    ensures { result_ok result ≡ result_ok outcome }
{
    match outcome {
        Ok(value) => Ok(value),
        Err(_) => Err(AllocError),
    }
}
