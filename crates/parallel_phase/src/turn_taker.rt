//! The trait of what takes the results of a phase in order.
ghost use Rattle.std.specs.Prelude.{◌≡◌, ◌<◌, ◌+◌, List};
ghost use Rattle.guest_memory.specs.Memory.{Memory};
ghost use Rattle.segment.specs.declared.segment.Segment.{Segment};
ghost use Rattle.parallel_phase.specs.Ran.{IsRanOf};
ghost use Rattle.parallel_phase.specs.Turns.{after_call};
ghost use Rattle.parallel_phase.specs.declared.taker_stage.TakerStage.{TakerStage};
ghost use Rattle.parallel_phase.specs.declared.taker_stage.TakerStage.TheVariants.{New, Going};
ghost use Rattle.claim_table.specs.Logs.{most_jobs};

use crate::finished_job::FinishedJob;
use std::alloc::AllocError;

/// Who takes the turns of a phase's jobs, in the order of the jobs.
pub trait TurnTaker {
    /// The jobs whose turns it takes.
    ghost turns_of: { Self → List Segment };

    /// The memory that each of them begins with.
    ghost begins_with: { Self → Memory };

    /// How far it is.
    ghost taker_stage: { Self → TakerStage };

    /// Called once, before the first turn. Whether turns are to be taken.
    fn begin(&mut self) -> Result<bool, AllocError>
        requires { taker_stage self.old ≡ New }
        ensures same { (turns_of self.new ≡ turns_of self.old) × (begins_with self.new ≡ begins_with self.old) }
        ensures stage { taker_stage self.new ≡ after_call result 0 };

    /// Takes the turn of the next job, which was run. Whether further turns are to be taken.
    fn take(&mut self, job: u32, ran: FinishedJob) -> Result<bool, AllocError>
        requires next { taker_stage self.old ≡ Going job }
        requires below { job < most_jobs }
        requires ran { IsRanOf (turns_of self.old) (begins_with self.old) job ran }
        ensures same { (turns_of self.new ≡ turns_of self.old) × (begins_with self.new ≡ begins_with self.old) }
        ensures stage { taker_stage self.new ≡ after_call result (job + 1) };
}
