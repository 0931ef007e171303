//! Walks along a run to one of its phases.
ghost use Rattle.std.specs.Prelude.{◌≡◌, ◌<◌, ◌≤◌, true, false, IfOk, OnOk};
ghost use Rattle.runtime.specs.Answer.{HasAnswer};
ghost use Rattle.small_schedules.specs.Walks.{Goes, IsShared, Stands};
ghost use Rattle.token.specs.History.{phase_of};
ghost use Rattle.token.specs.RunInTurn.{point_of};

use std::alloc::AllocError;
use std::sync::Wait;
use token::{Next, NoRecord, Serial, TurnFault, next_turn, one_history};

/// The number of the first phase in which more than one thread has a turn, or of the one in which the run ended if there is none.
pub(crate) fn first_shared<R: Wait>(
    rt: &R,
    serial: &mut Serial<NoRecord>,
) -> Result<u64, AllocError>
    ensures { IfOk result (IsShared (point_of serial.old).setup) }
{
    for _ in rt.forever() {
        stands(serial);
        if serial.base_threads().serial_list().len() > 1 || !go_on(serial)? {
            return Ok(serial.phase());
        }
    }
    unreachable!()
}

/// Does the turns ahead of a phase, and answers whether the run came to it before it ended.
pub(crate) fn go_to<R: Wait>(
    rt: &R,
    serial: &mut Serial<NoRecord>,
    phase: u64,
) -> Result<bool, AllocError>
    requires { (point_of serial.old).phase ≤ phase }
    ensures setup { OnOk result ((point_of serial.new).setup ≡ (point_of serial.old).setup) }
    ensures came { IfOk result (λ came. came ≡ true → (point_of serial.new).phase ≡ phase) }
    ensures ended { IfOk result (λ came. came ≡ false
        → HasAnswer (point_of serial.old).setup (λ history. phase_of history < phase)) }
{
    one_history();
    for _ in rt.forever() {
        if serial.phase() == phase {
            return Ok(true);
        }
        stands(serial);
        if !go_on(serial)? {
            return Ok(false);
        }
    }
    unreachable!()
}

/// Does the next turn of a run, and answers whether there was one.
fn go_on(serial: &mut Serial<NoRecord>) -> Result<bool, AllocError>
    ensures setup { (point_of serial.new).setup ≡ (point_of serial.old).setup }
    ensures goes { IfOk result (λ went. Goes went (point_of serial.old) (point_of serial.new)) }
{
    match next_turn(serial)? {
        Next::Turn(end) => match serial.turn(end.as_ref()) {
            Ok(_) => Ok(true),
            Err(TurnFault::OutOfMemory | TurnFault::WriteFailed) => Err(AllocError),
        },
        Next::Ended(_) => Ok(false),
    }
}

/// A run stands after a legal history.
pub(crate) fn stands(serial: &Serial<NoRecord>)
    ensures { Stands serial.now }
{
    let _need = serial.need();
}
