//! The outcomes of a phase, put together from what its seats did.

ghost use Rattle.std.specs.Prelude.{◌≡◌, ◌<◌, length, slice_set, All, IfOk, OnOk, map, flat_map};
ghost use Rattle.paged_memory.specs.Snapshot.{cells_of};
ghost use Rattle.parallel_phase.specs.Events.{AreByEvents};
ghost use Rattle.parallel_phase.specs.Outcomes.{AreFates, IsWhole, filed};
ghost use Rattle.parallel_phase.specs.Work.{IsWorkOf};

use crate::drawn::Drawn;
use crate::outcome::Outcome;
use crate::parallel_phase::ParallelPhase;
use crate::work_done::WorkDone;
use claim_table::DrawSeat;
use std::alloc::{AllocError, Global};

/// As many skipped jobs.
fn all_skipped(alloc: Global, count: usize) -> Result<Vec<Outcome>, AllocError>
    ensures { IfOk result (λ outcomes. (length outcomes.items ≡ count) × All (λ outcome. outcome ≡ Outcome.Skipped) outcomes.items) }
{
    let mut outcomes = Vec::with_capacity(alloc, count)?;
    for _ in 0..count {
        outcomes.push(Outcome::Skipped)?;
    }
    Ok(outcomes)
}

/// The seats of some works, and all that they drew, in order. Err also where memory was refused to one of them.
fn parted(alloc: Global, works: Vec<WorkDone>) -> Result<(Vec<DrawSeat>, Vec<Drawn>), AllocError>
    ensures whole { OnOk result (All IsWhole works.items) }
    ensures seats { IfOk result (λ parts. parts.0.items ≡ map (λ work. work.seat) works.items) }
    ensures drawn { IfOk result (λ parts. parts.1.items ≡ flat_map (λ work. work.outcomes) works.items) }
{
    let mut seats = Vec::with_capacity(alloc, works.len())?;
    let mut drawn = Vec::new(alloc);
    for work in works {
        let (seat, mut outcomes) = work.into_parts()?;
        seats.push(seat)?;
        drawn.append(&mut outcomes)?;
    }
    Ok((seats, drawn))
}

/// Puts the outcome of a drawn job into its place.
fn put(outcomes: &mut [Outcome], drawn: Drawn)
    requires { drawn.number < length outcomes.old }
    ensures { outcomes.new ≡ slice_set outcomes.old drawn.number drawn.outcome }
{
    outcomes[drawn.number as usize] = drawn.outcome;
}

/// Puts the outcomes of some drawn jobs into their places.
fn file(outcomes: &mut [Outcome], drawn: Vec<Drawn>)
    requires { All (λ job. job.number < length outcomes.old) drawn.items }
    ensures { outcomes.new ≡ filed outcomes.old drawn.items }
{
    for job in drawn {
        put(outcomes, job);
    }
}

impl ParallelPhase {
    /// What became of each job, in the order of the jobs. Err also where memory was refused to a seat.
    ///
    /// The works are those of all seats of this phase.
    pub fn collect(self, works: Vec<WorkDone>) -> Result<Vec<Outcome>, AllocError>
        requires all { length works.items ≡ self.row.size.seats }
        requires of_phase { All (IsWorkOf self) works.items }
        ensures fates { IfOk result (λ outcomes. AreFates self.jobs (cells_of self.base) outcomes.items) }
        ensures events { IfOk result (λ outcomes. AreByEvents self.jobs (cells_of self.base) works.items outcomes.items) }
    {
        let alloc = self.base().allocator();
        let mut outcomes = all_skipped(alloc, self.jobs().len())?;
        let (seats, drawn) = parted(alloc, works)?;
        self.shared.into_draws().gather(seats)?;
        file(outcomes.as_mut_slice(), drawn);
        Ok(outcomes)
    }
}
