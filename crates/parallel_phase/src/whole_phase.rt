//! A phase from its jobs to their outcomes.

ghost use Rattle.schedule.specs.declared.event.Event.{Event};
ghost use Rattle.std.specs.Prelude.{◌≡◌, ℕ, List, ◌<◌, ◌≤◌, [], length, max, min, All, IfOk};
ghost use Rattle.paged_memory.specs.Snapshot.{cells_of};
ghost use Rattle.claim_table.specs.Logs.{most_jobs, most_seats, new_log};
ghost use Rattle.parallel_phase.specs.Events.{LeadTo};
ghost use Rattle.parallel_phase.specs.Outcomes.{AreFates};
ghost use Rattle.parallel_phase.specs.Work.{IsUnbegun, IsWorkOf};
ghost use denote.Param.Send.{IsSync};

use crate::outcome::Outcome;
use crate::parallel_phase::ParallelPhase;
use crate::work_done::WorkDone;
use claim_table::DrawSeat;
use paged_memory::Snapshot;
use phase_jobs::Gate;
use segment::Segment;
use std::alloc::{AllocError, Global};
use std::thread::{Threads, join_mut};

/// How many seats so many workers take for so many jobs: no more than there are jobs, but one.
pub fn seats_for(jobs: usize, workers: u32) -> u32
    requires { (jobs ≤ most_jobs) × (0 < workers) }
    ensures exact { result ≡ min workers (max jobs 1) }
    ensures bounds { (0 < result) × (result ≤ workers) × (result ≤ max jobs 1) }
{
    workers.min(jobs.max(1) as u32)
}

impl ParallelPhase {
    /// The works of seats that have drawn nothing, the last seat's first.
    fn unbegun(&self, mut seats: Vec<DrawSeat>) -> Result<Vec<WorkDone>, AllocError>
        requires { All (λ seat. (seat.row ≡ self.now.row) × (seat.log ≡ new_log 1)) seats.items }
        ensures long { IfOk result (λ works. length works.items ≡ length seats.items) }
        ensures works { IfOk result (λ works. All (IsUnbegun self.now) works.items) }
    {
        let alloc = self.base().allocator();
        let mut works = Vec::with_capacity(alloc, seats.len())?;
        while let Some(seat) = seats.pop() {
            works.push(WorkDone::new(alloc, seat))?;
        }
        Ok(works)
    }

    /// Does the works, each in a thread of its own where one can be started, the last one in the caller's, which starts
    /// all others.
    #[cycle(works)]
    fn work_all<G: Gate + Sync, R: Threads + Sync>(&self, rt: &R, gate: &G, works: &mut [WorkDone])
        requires { (0 < length works.old) × All (IsUnbegun self.now) works.old }
        ensures { (length works.new ≡ length works.old) × All (IsWorkOf self.now) works.new }
    {
        if works.len() < 2 {
            self.work_on(&mut works[0], gate);
            return;
        }
        let (first, others) = works.split_at_mut(1);
        join_mut(
            rt,
            &mut ||
                requires { IsSync R.row × IsSync G.row × (0 < length first.now) × All (IsUnbegun self.now) first.now }
                ensures { (length first.exit.now ≡ length first.entry.now) × All (IsWorkOf self.entry.now) first.exit.now }
            { self.work_all(rt, gate, first) },
            &mut ||
                requires { IsSync R.row × IsSync G.row × (0 < length others.now) × All (IsUnbegun self.now) others.now }
                ensures { (length others.exit.now ≡ length others.entry.now) × All (IsWorkOf self.entry.now) others.exit.now }
            { self.work_all(rt, gate, others) },
        );
    }
}

/// Runs the jobs of a phase, at most 256, on a memory by 1 to 64 workers, of which the caller's thread is one. What
/// became of each job, in the order of the jobs.
///
/// No more threads are started than there are jobs but one. Where a thread can't be started, the others run its jobs.
pub fn run_phase<G: Gate + Sync, R: Threads + Sync>(
    rt: &R,
    alloc: Global,
    jobs: &[Segment],
    workers: u32,
    gate: &G,
    base: &Snapshot,
) -> Result<Vec<Outcome>, AllocError>
    requires { (length jobs.now ≤ most_jobs) × (0 < workers) × (workers ≤ most_seats) }
    ensures fates { IfOk result (λ outcomes. AreFates jobs.now (cells_of base.now) outcomes.items) }
    ensures events { IfOk result (λ outcomes. (seats : ℕ) × (events : List Event) × (seats ≤ workers)
        × LeadTo jobs.now (cells_of base.now) seats events outcomes.items) }
{
    let (phase, seats) = ParallelPhase::open(alloc, jobs, seats_for(jobs.len(), workers), base)?;
    let mut works = phase.unbegun(seats)?;
    phase.work_all(rt, gate, works.as_mut_slice());
    phase.collect(works)
}
