//! What the next turn of a run needs, with its segment executed here. The run is only read.
ghost use Rattle.std.specs.Prelude.{IfOk};
ghost use Rattle.token.specs.Next.{IsNext};
ghost use Rattle.token.specs.RunInTurn.{point_of};

use crate::need::Need;
use crate::outcome::RunOutcome;
use crate::recorder::Recorder;
use crate::serial::Serial;
use segment::SegmentEnd;
use std::alloc::AllocError;

/// How a run goes on.
#[derive(Drop)]
pub enum Next {
    /// By a turn with this end of a segment, or with none at a wake.
    Turn(Option<SegmentEnd>),
    /// There is no further turn.
    Ended(RunOutcome),
}

/// What the next turn of a run needs. The segment is executed here, where it needs one. The run is only read.
#[tactic(auto, using(crate::proofs::Needs::needs))]
pub fn next_turn<R: Recorder>(serial: &Serial<R>) -> Result<Next, AllocError>
    ensures { IfOk result (IsNext (point_of serial.now)) }
{
    match serial.need() {
        Need::Segment(work) => {
            let end = work.segment.run(serial.base())?;
            Ok(Next::Turn(Some(end)))
        }
        Need::Keeper(work) => {
            let end = work.segment.run(serial.now())?;
            Ok(Next::Turn(Some(end)))
        }
        Need::Wake { .. } => Ok(Next::Turn(None)),
        Need::Ended(outcome) => Ok(Next::Ended(outcome)),
    }
}
