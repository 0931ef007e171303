//! A phase from its opening to what became of each job: its seats draw and run its jobs, each for itself.

ghost use Rattle.std.specs.Prelude.{◌≡◌, ◌+◌, ◌<◌, ◌≤◌, length, true, false, IfOk, IfSome, IfNone, OnErr, OnSome, map, option_map};
ghost use Rattle.std.specs.List.{range_with_len};
ghost use Rattle.paged_memory.specs.Snapshot.{cells_of};
ghost use Rattle.claim_table.specs.Logs.{most_jobs, most_seats, new_log, times, with_end};
ghost use Rattle.claim_table.specs.Seat.{drew};
ghost use Rattle.phase_jobs.specs.SharedJobs.{Looks};
ghost use Rattle.phase_jobs.specs.Slices.{IsSlice};
ghost use Rattle.segment.specs.declared.progress.Progress.TheVariants.{Over};
ghost use Rattle.parallel_phase.specs.Outcome.{IsOutcomeAt};
ghost use Rattle.parallel_phase.specs.Work.{Works, OnlyDraws, AreOver, HasDrawn, IsUnbegun, IsWorkOf};

use crate::drawn::Drawn;
use crate::finished_job::FinishedJob;
use crate::outcome::Outcome;
use crate::work_done::WorkDone;
use claim_table::DrawSeat;
use paged_memory::Snapshot;
use phase_jobs::{Gate, SharedJobs};
use segment::{Progress, Segment, SegmentEnd};
use std::alloc::{AllocError, Global};
use std::marker::Model;

/// The jobs of a phase and the memory that each begins with. It is shared by reference with those who have seats.
#[derive(Drop)]
pub struct ParallelPhase {
    pub(crate) shared: SharedJobs,
}

impl Model for ParallelPhase {
    ghost use Rattle.std.specs.Prelude.{◌≡◌, ◌<◌, ◌≤◌, length};
    ghost use Rattle.claim_table.specs.Logs.{most_jobs};
    ghost use Rattle.phase_jobs.specs.SharedJobs.{PhaseState};

    ghost Value = { PhaseState };

    ghost view = { λ p. p.shared };

    ghost invariant = { λ p. (length p.shared.jobs ≡ p.shared.row.size.jobs) × (0 < p.shared.row.size.seats) × (length p.shared.jobs ≤ most_jobs) };
}

/// Runs a job that a seat drew to its end. None if a lower job ends the run.
fn run(
    shared: &SharedJobs,
    seat: &mut DrawSeat,
    number: u32,
) -> Result<Option<SegmentEnd>, AllocError>
    requires { HasDrawn shared.now number seat.old }
    ensures over { IfOk result (λ end.
        IsSlice shared.now.jobs (cells_of shared.now.base) number 0 seat.old seat.new (option_map Over end)) }
    ensures refused { OnErr result (Looks seat.old seat.new) }
{
    let mut slice = shared.begin(seat, number)?;
    loop {
        match slice {
            Some(Progress::GoesOn(job)) => slice = shared.go_on(seat, number, job)?,
            Some(Progress::Over(end)) => return Ok(Some(end)),
            None => return Ok(None),
        }
    }
}

impl ParallelPhase {
    /// The phase of some jobs, at most 256, on a memory, with seats for 1 to 64 threads.
    pub fn open(
        alloc: Global,
        jobs: &[Segment],
        seats: u32,
        base: &Snapshot,
    ) -> Result<(ParallelPhase, Vec<DrawSeat>), AllocError>
        requires { (length jobs.now ≤ most_jobs) × (0 < seats) × (seats ≤ most_seats) }
        ensures jobs { IfOk result (λ made. (made.0.jobs ≡ jobs.now) × (cells_of made.0.base ≡ cells_of base.now)) }
        ensures size { IfOk result (λ made. made.0.row.size ≡ record { jobs = length jobs.now; seats = seats }) }
        ensures seats { IfOk result (λ made. made.1.items
            ≡ map (λ number. record { row = made.0.row; number = number; log = new_log 1 }) (range_with_len 0 seats)) }
    {
        let (shared, given) = SharedJobs::open(alloc, jobs, seats, base)?;
        Ok((ParallelPhase { shared }, given))
    }

    /// The jobs, in their order.
    pub(crate) fn jobs(&self) -> &[Segment]
        ensures jobs { result.now ≡ self.now.jobs }
        ensures most { length result.now ≤ most_jobs }
    {
        self.shared.jobs()
    }

    /// The memory that each job begins with.
    pub(crate) fn base(&self) -> &Snapshot
        ensures { result.now ≡ self.now.base }
    {
        self.shared.base()
    }

    /// Draws a job. None where no job is left, now and whenever this seat draws again.
    pub(crate) fn draw(&self, seat: &mut DrawSeat) -> Option<u32>
        requires { seat.old.row ≡ self.now.row }
        ensures log { seat.new ≡ record seat.old { log = drew seat.old.log result } }
        ensures below { IfSome result (λ number. (number < length self.now.jobs) × (seat.old.log.ended ≡ 0)) }
        ensures drawn { IfSome result (λ number. 0 < times number seat.new.log.drawn) }
        ensures room { OnSome result (length seat.new.log.drawn ≤ length self.now.jobs) }
    {
        self.shared.draw(seat)
    }

    /// Draws a job and runs it, unless a lower one ends the run. The answer is None if no job is left, and then this
    /// seat draws none later either.
    ///
    /// # Errors
    ///
    /// Out of memory. The number that the seat drew stays drawn, and no job was noted.
    pub fn one<G: Gate>(&self, seat: &mut DrawSeat, gate: &G) -> Result<Option<Drawn>, AllocError>
        requires { seat.old.row ≡ self.now.row }
        ensures none { IfOk result (λ found. IfNone found (seat.new ≡ record seat.old { log = with_end seat.old.log })) }
        ensures some { IfOk result (λ found. IfSome found (Works self.now.jobs (cells_of self.now.base) seat.old seat.new)) }
        ensures going { IfOk result (λ found. OnSome found (seat.old.log.ended ≡ 0)) }
        ensures refused { OnErr result (OnlyDraws self.now.jobs seat.old seat.new) }
    {
        let Some(number) = self.draw(seat) else {
            return Ok(None);
        };
        gate.pass(seat.number(), number);
        let outcome = self.outcome(seat, number)?;
        Ok(Some(Drawn { number, outcome }))
    }

    /// What becomes of a job that the seat drew.
    fn outcome(&self, seat: &mut DrawSeat, number: u32) -> Result<Outcome, AllocError>
        requires { HasDrawn self.now number seat.old }
        ensures outcome { IfOk result (IsOutcomeAt self.now.jobs (cells_of self.now.base) number seat.old seat.new) }
        ensures refused { OnErr result (Looks seat.old seat.new) }
    {
        let base = self.base().try_clone()?;
        match run(&self.shared, seat, number)? {
            Some(end) => Ok(Outcome::Ran(FinishedJob::new(
                number,
                self.jobs()[number as usize],
                base,
                end,
            ))),
            None => Ok(Outcome::Skipped),
        }
    }

    /// Draws and runs one more job. Whether to go on: not where no job is left, nor where memory was refused.
    fn work_once<G: Gate>(&self, work: &mut WorkDone, gate: &G) -> bool
        requires row { work.old.seat.row ≡ self.now.row }
        requires over { (work.old.refused ≡ false) × AreOver self.now.jobs (cells_of self.now.base) work.old.outcomes }
        ensures row { (work.new.seat.row ≡ work.old.seat.row) × (work.new.seat.number ≡ work.old.seat.number) }
        ensures over { AreOver self.now.jobs (cells_of self.now.base) work.new.outcomes }
        ensures on { result ≡ true → (work.new.refused ≡ false)
            × (length work.new.seat.log.drawn ≡ length work.old.seat.log.drawn + 1)
            × (length work.new.seat.log.drawn ≤ length self.now.jobs) }
        ensures ended { result ≡ false → work.new.refused ≡ false → 0 < work.new.seat.log.ended }
    {
        match self.one(&mut work.seat, gate) {
            Ok(Some(drawn)) => match work.outcomes.push(drawn) {
                Ok(()) => return true,
                Err(failed) => {
                    work.refused = Some(failed.into());
                    return false;
                }
            },
            Ok(None) => return false,
            Err(error) => {
                work.refused = Some(error);
                return false;
            }
        }
    }

    /// Draws and runs jobs by a seat that has drawn nothing, until none is left or memory is refused.
    pub(crate) fn work_on<G: Gate>(&self, work: &mut WorkDone, gate: &G)
        requires { IsUnbegun self.now work.old }
        ensures of_phase { IsWorkOf self.now work.new }
        ensures number { work.new.seat.number ≡ work.old.seat.number }
    {
        while self.work_once(work, gate) {}
    }

    /// Draws and runs jobs until none is left or memory is refused. It waits for nobody.
    ///
    /// The seat is one of this phase that has drawn nothing. It may be called in any thread.
    pub fn work<G: Gate>(&self, seat: DrawSeat, gate: &G) -> WorkDone
        requires { (seat.row ≡ self.now.row) × (seat.log ≡ new_log 1) }
        ensures of_phase { IsWorkOf self.now result }
        ensures number { result.seat.number ≡ seat.number }
    {
        let mut work = WorkDone::new(self.base().allocator(), seat);
        self.work_on(&mut work, gate);
        work
    }
}
