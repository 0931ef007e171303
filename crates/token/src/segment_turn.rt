//! A turn that ends a segment: its commit and its call.
ghost use Rattle.std.specs.Prelude.{◌≡◌, ◌<◌, [], ◌∷◌, length, IfOk, OnOk, OnErr};
ghost use Rattle.call_table.specs.Shared.{state_of, input_of};
ghost use Rattle.call_table.specs.State.{row_of};
ghost use Rattle.hart.specs.HartState.{register};
ghost use Rattle.thread_table.specs.declared.status.Status.TheVariants.{Ready};
ghost use Rattle.token.specs.Point.{stopped_by};

use crate::turn::TurnStop;
use abi::Reply;
use call_table::SharedState;
use hart::{Hart, Stop};
use segment::SegmentEnd;
use std::alloc::AllocError;

/// Commits what a thread changed, and carries out its call where it stopped by one. Answers how the turn
/// stopped. Nothing changes when memory runs out.
#[tactic(auto, unfolding(crate::specs::Turns::after_stop))]
pub(crate) fn run_on(
    shared: &mut SharedState,
    thread: u32,
    end: &SegmentEnd,
    executed: u64,
) -> Result<TurnStop, AllocError>
    requires thread { thread < length (state_of shared.old).threads }
    requires ready { (row_of (state_of shared.old) thread).status ≡ Ready }
    ensures stop { IfOk result (λ stop. stop ≡ (stopped_by (state_of shared.old) thread end.now executed).stop) }
    ensures state { OnOk result (state_of shared.new ≡ (stopped_by (state_of shared.old) thread end.now executed).state) }
    ensures kept { OnErr result (state_of shared.new ≡ state_of shared.old) }
    ensures input { input_of shared.new ≡ input_of shared.old }
{
    let pc = end.hart.pc();
    match end.stop {
        Stop::Trap(trap) => {
            shared.commit(thread, &end.patch, end.hart, executed)?;
            Ok(TurnStop::Trap { pc, trap })
        }
        Stop::Quantum => {
            shared.commit(thread, &end.patch, end.hart, executed)?;
            Ok(TurnStop::Quantum { pc })
        }
        Stop::Ecall => {
            let reply = shared.commit_and_call(thread, &end.patch, end.hart, executed)?;
            Ok(call_stop(&end.hart, reply))
        }
    }
}

/// The stop of a hart by an ecall, where the call came to this.
fn call_stop(hart: &Hart, reply: Reply) -> TurnStop
    ensures { result
        ≡ TurnStop.Call (register hart.now 17) (register hart.now 10 ∷ register hart.now 11 ∷ register hart.now 12 ∷ []) reply }
{
    TurnStop::Call {
        number: hart.reg(17),
        arguments: [hart.reg(10), hart.reg(11), hart.reg(12)],
        reply,
    }
}
