//! A taker of turns over the serial state, for one phase at a time.
ghost use Rattle.std.specs.Prelude.{◌≡◌, ◌<◌, ◌+◌, List, length, IfOk};
ghost use Rattle.guest_memory.specs.Memory.{Memory};
ghost use Rattle.paged_memory.specs.Snapshot.{cells_of};
ghost use Rattle.parallel_phase.specs.Ran.{IsRanOf};
ghost use Rattle.segment.specs.declared.segment.Segment.{Segment as SegmentValue};
ghost use Rattle.token.specs.RunInTurn.{point_of};
ghost use Rattle.worker_pool.specs.Jobs.{AreJobsIn};

use paged_memory::Snapshot;
use parallel_phase::{FinishedJob, TakerStage, TurnTaker};
use phase_jobs::Gate;
use segment::Segment;
use std::alloc::{AllocError, Global};
use std::marker::{Model, PhantomData};
use token::{Kept, Need, Serial, TurnFault};
use worker_pool::{OfRun, jobs_of};

/// Who does the turns of a phase of a run as its jobs end: of each job the turn of its thread, and then those that need no
/// job, of a thread that keeps the token and of woken threads. The gate is told of each turn.
#[derive(Drop)]
pub struct PhaseTurns<'a, B: OfRun, G: Gate> {
    serial: Serial<Kept>,
    gate: &'a G,
    number: u64,
    /// The threads of the jobs, in their order.
    threads: Vec<u32>,
    jobs: Vec<Segment>,
    base: Snapshot,
    stage: TakerStage,
    of: PhantomData<B>,
}

impl<'a, B: OfRun, G: Gate> Model for PhaseTurns<'a, B, G> {
    ghost use Rattle.token.specs.RunInTurn.{point_of};
    ghost use Rattle.test_run_ways.specs.Takers.{TakerState, IsOfPhase};

    ghost Value = { TakerState };

    ghost view = { λ t. record { jobs = t.jobs.items; base = t.base; stage = t.stage } };

    ghost invariant = { λ t. IsOfPhase B.setup (point_of t.serial) t.number t.threads.items t.jobs.items t.base };
}

/// Does the turn of a thread whose job was run, and answers the thread. None where the run needs another one, or memory was
/// refused.
fn job_turn<B: OfRun>(
    serial: &mut Serial<Kept>,
    number: u64,
    threads: &[u32],
    job: u32,
    ran: FinishedJob,
) -> Option<u32>
    requires setup { (point_of serial.old).setup ≡ B.setup }
    requires ran { (jobs : List SegmentValue) × (memory : Memory) × AreJobsIn B.setup number threads.now jobs memory
        × IsRanOf jobs memory job ran }
    ensures { (point_of serial.new).setup ≡ (point_of serial.old).setup }
{
    let Need::Segment(work) = serial.need() else {
        return None;
    };
    let place = job as usize;
    if serial.phase() != number || place >= threads.len() || threads[place] != work.thread {
        return None;
    }
    let end = ran.into_end();
    serial.turn(Some(&end)).ok()?;
    Some(work.thread)
}

/// Does a turn that needs no job, and answers its thread. None where the next one needs a job or there is none.
fn other_turn(serial: &mut Serial<Kept>) -> Result<Option<u32>, TurnFault>
    ensures { (point_of serial.new).setup ≡ (point_of serial.old).setup }
{
    match serial.need() {
        Need::Keeper(work) => {
            let end = work.segment.run(serial.now())?;
            serial.turn(Some(&end))?;
            Ok(Some(work.thread))
        }
        Need::Wake { thread } => {
            serial.turn(None)?;
            Ok(Some(thread))
        }
        Need::Segment(_) | Need::Ended(_) => Ok(None),
    }
}

/// Does the turns of a phase that come next and need no job. Whether the phase goes on.
fn other_turns<G: Gate>(serial: &mut Serial<Kept>, number: u64, gate: &G) -> bool
    ensures { (point_of serial.new).setup ≡ (point_of serial.old).setup }
{
    for _ in 0..u64::MAX {
        if serial.phase() != number {
            return false;
        }
        match other_turn(serial) {
            Ok(Some(thread)) => gate.turned(thread),
            Ok(None) => return matches!(serial.need(), Need::Segment(_)),
            Err(_) => return false,
        }
    }
    false
}

impl<'a, B: OfRun, G: Gate> PhaseTurns<'a, B, G> {
    ghost use Rattle.parallel_phase.specs.declared.taker_stage.TakerStage.TheVariants.{New};

    /// Who does the turns of the phase that a run is in.
    pub fn open(alloc: Global, serial: Serial<Kept>, gate: &'a G) -> Result<Self, AllocError>
        requires { (point_of serial).setup ≡ B.setup }
        ensures { IfOk result (λ turns. turns.stage ≡ New) }
    {
        serial.need();
        let ready = serial.jobs();
        let threads = Vec::from_slice(alloc, ready.as_slice())?;
        let jobs = jobs_of(alloc, &serial, threads.as_slice())?;
        let base = serial.base().try_clone()?;
        let number = serial.phase();
        Ok(PhaseTurns {
            serial,
            gate,
            number,
            threads,
            jobs,
            base,
            stage: TakerStage::New,
            of: PhantomData,
        })
    }

    /// The jobs whose turns it does.
    pub fn jobs(&self) -> &[Segment]
        ensures { result.now ≡ self.now.jobs }
    {
        self.jobs.as_slice()
    }

    /// The memory that each job begins with.
    pub fn base(&self) -> &Snapshot
        ensures { result.now ≡ self.now.base }
    {
        &self.base
    }

    /// The run, after the turns that were done.
    pub fn into_serial(self) -> Serial<Kept>
        ensures { (point_of result).setup ≡ B.setup }
    {
        self.serial
    }
}

impl<'a, B: OfRun, G: Gate> TurnTaker for PhaseTurns<'a, B, G> {
    ghost use Rattle.std.specs.Prelude.{List};
    ghost use Rattle.paged_memory.specs.Snapshot.{cells_of};

    ghost turns_of = { λ t. t.jobs };

    ghost begins_with = { λ t. cells_of t.base };

    ghost taker_stage = { λ t. t.stage };

    fn begin(&mut self) -> Result<bool, AllocError> {
        let goes_on = other_turns(&mut self.serial, self.number, self.gate);
        self.stage = if goes_on {
            TakerStage::Going(0)
        } else {
            TakerStage::Stopped(0)
        };
        Ok(goes_on)
    }

    fn take(&mut self, job: u32, ran: FinishedJob) -> Result<bool, AllocError> {
        let done = job_turn::<B>(
            &mut self.serial,
            self.number,
            self.threads.as_slice(),
            job,
            ran,
        );
        let goes_on = match done {
            Some(thread) => {
                self.gate.turned(thread);
                other_turns(&mut self.serial, self.number, self.gate)
            }
            None => false,
        };
        self.stage = if goes_on {
            TakerStage::Going(job + 1)
        } else {
            TakerStage::Stopped(job + 1)
        };
        Ok(goes_on)
    }
}
