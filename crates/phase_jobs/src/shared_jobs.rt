//! A phase's jobs and its memory, shared by reference: each job drawn once, and run slice by slice by who drew it.

ghost use Rattle.std.specs.Prelude.{◌≡◌, ◌<◌, ◌≤◌, length, true, false, IfOk, IfSome, OnErr, OnSome, map};
ghost use Rattle.std.specs.List.{range_with_len};
ghost use Rattle.paged_memory.specs.Snapshot.{cells_of};
ghost use Rattle.claim_table.specs.Logs.{most_jobs, most_seats, new_log, times};
ghost use Rattle.claim_table.specs.Seat.{drew};
ghost use Rattle.phase_jobs.specs.SharedJobs.{Looks, SawBelow};
ghost use Rattle.phase_jobs.specs.Slices.{IsGoing, IsSlice, noted_by};

use claim_table::{DrawSeat, Draws};
use paged_memory::Snapshot;
use schedule::ends_run;
use segment::{Progress, SLICE, Segment, Underway};
use std::alloc::{AllocError, Global};
use std::marker::Model;

/// The jobs of a phase and the memory that each begins with. It is shared by reference with those who have seats.
#[derive(Drop)]
pub struct SharedJobs {
    draws: Draws,
    jobs: Vec<Segment>,
    base: Snapshot,
}

impl Model for SharedJobs {
    ghost use Rattle.std.specs.Prelude.{◌≡◌, ◌<◌, ◌≤◌, length};
    ghost use Rattle.claim_table.specs.Logs.{most_jobs};
    ghost use Rattle.phase_jobs.specs.SharedJobs.{PhaseState};

    ghost Value = { PhaseState };

    ghost view = { λ p. record { row = p.draws; jobs = p.jobs.items; base = p.base } };

    ghost invariant = { λ p. (length p.jobs.items ≡ p.draws.size.jobs) × (0 < p.draws.size.seats) × (length p.jobs.items ≤ most_jobs) };
}

impl SharedJobs {
    /// The phase of some jobs, at most 256, on a memory, with seats for 1 to 64 threads.
    pub fn open(
        alloc: Global,
        jobs: &[Segment],
        seats: u32,
        base: &Snapshot,
    ) -> Result<(SharedJobs, Vec<DrawSeat>), AllocError>
        requires { (length jobs.now ≤ most_jobs) × (0 < seats) × (seats ≤ most_seats) }
        ensures jobs { IfOk result (λ made. (made.0.jobs ≡ jobs.now) × (cells_of made.0.base ≡ cells_of base.now)) }
        ensures size { IfOk result (λ made. made.0.row.size ≡ record { jobs = length jobs.now; seats = seats }) }
        ensures seats { IfOk result (λ made. made.1.items
            ≡ map (λ number. record { row = made.0.row; number = number; log = new_log 1 }) (range_with_len 0 seats)) }
    {
        let (draws, given) = Draws::new(alloc, jobs.len() as u32, seats)?;
        let mut copies = Vec::with_capacity(alloc, jobs.len())?;
        copies.extend_from_slice(jobs)?;
        let base = base.try_clone()?;
        let shared = SharedJobs {
            draws,
            jobs: copies,
            base,
        };
        Ok((shared, given))
    }

    /// The jobs, in their order.
    pub fn jobs(&self) -> &[Segment]
        ensures { result.now ≡ self.now.jobs }
    {
        self.jobs.as_slice()
    }

    /// The memory that each job begins with.
    pub fn base(&self) -> &Snapshot
        ensures { result.now ≡ self.now.base }
    {
        &self.base
    }

    /// The draws alone, which tell what all seats did.
    pub fn into_draws(self) -> Draws
        ensures { result ≡ self.row }
    {
        let SharedJobs {
            draws,
            jobs: _,
            base: _,
        } = self;
        draws
    }

    /// Whether a number below this one was noted, as far as is known.
    fn is_unwanted(&self, seat: &mut DrawSeat, number: u32) -> bool
        requires { seat.old.row ≡ self.now.row }
        ensures looks { Looks seat.old seat.new }
        ensures below { result ≡ true → SawBelow seat.new.log number }
        ensures none { result ≡ false → ¬ SawBelow seat.new.log number }
    {
        match self.draws.least(seat) {
            Some(least) => least < number,
            None => false,
        }
    }

    /// Draws a job. None where no job is left, now and whenever this seat draws again.
    pub fn draw(&self, seat: &mut DrawSeat) -> Option<u32>
        requires { seat.old.row ≡ self.now.row }
        ensures log { seat.new ≡ record seat.old { log = drew seat.old.log result } }
        ensures below { IfSome result (λ number. (number < length self.now.jobs) × (seat.old.log.ended ≡ 0)) }
        ensures drawn { IfSome result (λ number. 0 < times number seat.new.log.drawn) }
        ensures room { OnSome result (length seat.new.log.drawn ≤ length self.now.jobs) }
    {
        self.draws.draw(seat)
    }

    /// Begins a job that the seat drew, by a first slice, and notes it if the run ends by it. None if a lower job ends
    /// the run: nothing of it is executed then.
    pub fn begin(&self, seat: &mut DrawSeat, number: u32) -> Result<Option<Progress>, AllocError>
        requires row { seat.old.row ≡ self.now.row }
        requires job { number < length self.now.jobs }
        requires drawn { 0 < times number seat.old.log.drawn }
        ensures slice { IfOk result (IsSlice self.now.jobs (cells_of self.now.base) number 0 seat.old seat.new) }
        ensures refused { OnErr result (Looks seat.old seat.new) }
    {
        if self.is_unwanted(seat, number) {
            return Ok(None);
        }
        let progress = Underway::begin(self.jobs[number as usize], &self.base, SLICE)?;
        self.note(seat, number, &progress);
        Ok(Some(progress))
    }

    /// Goes on with a job that the seat drew, by a further slice, and notes it if the run ends by it. None if a lower job
    /// ends the run: nothing more of it is executed then.
    pub fn go_on(
        &self,
        seat: &mut DrawSeat,
        number: u32,
        job: Underway,
    ) -> Result<Option<Progress>, AllocError>
        requires row { seat.old.row ≡ self.now.row }
        requires going { IsGoing self.now.jobs (cells_of self.now.base) number job }
        requires drawn { 0 < times number seat.old.log.drawn }
        ensures slice { IfOk result (IsSlice self.now.jobs (cells_of self.now.base) number job.done seat.old seat.new) }
        ensures refused { OnErr result (Looks seat.old seat.new) }
    {
        if self.is_unwanted(seat, number) {
            return Ok(None);
        }
        let progress = job.go_on(SLICE)?;
        self.note(seat, number, &progress);
        Ok(Some(progress))
    }

    /// Notes a job that the seat drew if it is over and the run ends by it.
    fn note(&self, seat: &mut DrawSeat, number: u32, progress: &Progress)
        requires row { seat.old.row ≡ self.now.row }
        requires drawn { 0 < times number seat.old.log.drawn }
        ensures { seat.new ≡ noted_by progress.now seat.old number }
    {
        if let Progress::Over(end) = progress {
            if ends_run(&end.hart, end.stop) {
                self.draws.note(seat, number);
            }
        }
    }
}
