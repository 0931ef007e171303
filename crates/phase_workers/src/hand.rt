//! A host thread at a phase: it draws jobs and executes them in slices. It waits for nobody.
ghost use Rattle.std.specs.Prelude.{◌≡◌, ◌<◌, length};
ghost use Rattle.claim_table.specs.Logs.{times};
ghost use Rattle.phase_workers.specs.Hands.{Has, HasStepped, IsKept};

use crate::drawn_job::DrawnJob;
use crate::job_outcome::JobOutcome;
use crate::step_outcome::StepOutcome;
use claim_table::DrawSeat;
use phase_jobs::{Gate, SharedJobs};
use segment::Progress;
use std::alloc::AllocError;

/// What a host thread has of a phase: its seat, and the job that it drew and that goes on, if there is one.
#[derive(Drop)]
pub struct Hand {
    /// Its seat.
    pub seat: DrawSeat,
    /// The job that it holds.
    pub held: Option<DrawnJob>,
}

impl Hand {
    /// Goes on with the job that it holds, by a slice, or draws one and begins it. The gate is passed before a job
    /// begins.
    pub(crate) fn step<G: Gate>(&mut self, jobs: &SharedJobs, gate: &G) -> StepOutcome
        requires { Has jobs.now self.old }
        ensures has { Has jobs.now self.new }
        ensures stepped { HasStepped jobs.now self.old self.new result }
    {
        if let Some(DrawnJob { number, job }) = self.held.take() {
            let slice = jobs.go_on(&mut self.seat, number, job);
            return self.keep(number, slice);
        }
        let Some(number) = jobs.draw(&mut self.seat) else {
            return StepOutcome::NoneLeft;
        };
        gate.pass(self.seat.number(), number);
        let slice = jobs.begin(&mut self.seat, number);
        self.keep(number, slice)
    }

    /// Keeps a job that goes on after a slice, or tells what became of it.
    fn keep(&mut self, number: u32, slice: Result<Option<Progress>, AllocError>) -> StepOutcome
        ensures { IsKept self.old self.new number slice result }
    {
        match slice {
            Ok(Some(Progress::GoesOn(job))) => {
                self.held = Some(DrawnJob { number, job });
                StepOutcome::GoesOn
            }
            Ok(Some(Progress::Over(end))) => StepOutcome::Over {
                number,
                told: JobOutcome::Ended(end),
            },
            Ok(None) => StepOutcome::Over {
                number,
                told: JobOutcome::Skipped,
            },
            Err(_) => StepOutcome::Over {
                number,
                told: JobOutcome::Refused,
            },
        }
    }
}
