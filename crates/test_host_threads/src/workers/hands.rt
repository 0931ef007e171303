//! Runs with two or three workers whose gate holds one host thread until another one has come somewhere: jobs run side
//! by side, turns are taken beside running jobs, and a run ends beside an endless one, which is some slices old by then.

use crate::workers::seen::{BEFORE, Seen, is_reached, linger, reach};
use data_guest_programs::{
    KEEPER_EXIT, KEEPER_EXIT_TRACE, LATE_WORK, Program, RACE, RACE_TRACE, SIGNAL,
};
use runtime::{Config, Gate, MAX_BOUND, Report, RunOutcome, run};
use std::alloc::Global;
use std::process::Abort;
use std::rt::Clock;
use std::sync::Wait;
use std::test::Fail;
use std::thread::Threads;
use tracer::trace_text;

/// How often each run is made.
const TIMES: u32 = 100;

/// The number of the caller among the workers.
const CALLER: u32 = 0;

/// How many turns of `late-work` come before phase 22. If no phase is shared out from the beginning on, or sixteen are,
/// the caller executes the beginning of its long job alone.
const BEFORE_LATE: u64 = 45;

/// What host threads do once some turns are done, before each job that they have drawn.
trait Holding {
    fn hold<R: Clock>(&self, seen: &Seen<'_, R>, worker: u32, job: u32);
}

/// A gate that counts turns, and holds host threads once so many are done. It says nothing of phases, so each is shared
/// out.
#[derive(Drop)]
struct Held<'a, R, H> {
    seen: Seen<'a, R>,
    after: u64,
    holding: &'a H,
}

impl<'a, R: Clock, H> Held<'a, R, H> {
    fn by(rt: &'a R, after: u64, holding: &'a H) -> Result<Self, Fail> {
        Ok(Held {
            seen: Seen::nothing(rt)?,
            after,
            holding,
        })
    }
}

impl<'a, R: Clock, H: Holding> Gate for Held<'a, R, H> {
    fn pass(&self, worker: u32, job: u32) {
        if self.seen.has_done(self.after) {
            self.holding.hold(&self.seen, worker, job);
        }
    }

    fn turned(&self, _thread: u32) {
        self.seen.count_turn();
    }
}

/// A gate by which so many phases are shared out from the beginning on.
#[derive(Drop)]
struct SharingFirst<G> {
    gate: G,
    phases: u32,
}

impl<G: Gate> Gate for SharingFirst<G> {
    fn pass(&self, worker: u32, job: u32) {
        self.gate.pass(worker, job);
    }

    fn turned(&self, thread: u32) {
        self.gate.turned(thread);
    }

    fn first_shared(&self) -> u32 {
        self.phases
    }
}

/// Jobs 0 and 1 of a phase wait for each other.
#[derive(Drop)]
struct Meeting;

impl Holding for Meeting {
    fn hold<R: Clock>(&self, seen: &Seen<'_, R>, _worker: u32, job: u32) {
        match job {
            0 => {
                reach(&seen.first);
                seen.wait_until(|| is_reached(&seen.second));
            }
            1 => {
                reach(&seen.second);
                seen.wait_until(|| is_reached(&seen.first));
            }
            _ => {}
        }
    }
}

/// The three jobs of phase 2 wait for each other.
#[derive(Drop)]
struct MeetingOfThree;

impl Holding for MeetingOfThree {
    fn hold<R: Clock>(&self, seen: &Seen<'_, R>, _worker: u32, job: u32) {
        match job {
            0 => reach(&seen.first),
            1 => reach(&seen.second),
            _ => reach(&seen.third),
        }
        seen.wait_until(|| {
            is_reached(&seen.first) && is_reached(&seen.second) && is_reached(&seen.third)
        });
    }
}

/// In phase 2 the caller waits until another worker has come to a job above 0, or until thread 0's turn. That worker
/// waits there for thread 0's turn.
#[derive(Drop)]
struct Overlap;

impl Holding for Overlap {
    fn hold<R: Clock>(&self, seen: &Seen<'_, R>, worker: u32, job: u32) {
        if seen.has_done(BEFORE + 3) {
            return;
        }
        if worker == CALLER {
            seen.wait_until(|| is_reached(&seen.first) || seen.has_done(BEFORE + 1));
        } else if job > 0 {
            reach(&seen.first);
            seen.wait_until(|| seen.has_done(BEFORE + 1));
        }
    }
}

/// The endless job of phase 2, its job 2, runs on the worker: the caller waits for that, and then some more, and the
/// worker before its other jobs for the caller.
#[derive(Drop)]
struct EndlessWorker;

impl Holding for EndlessWorker {
    fn hold<R: Clock>(&self, seen: &Seen<'_, R>, worker: u32, job: u32) {
        if worker == CALLER {
            reach(&seen.second);
            seen.wait_until(|| is_reached(&seen.first));
            linger();
        } else if job == 2 {
            reach(&seen.first);
        } else {
            seen.wait_until(|| is_reached(&seen.second));
        }
    }
}

/// The endless job of phase 2, its job 2, runs on the caller: the worker waits for that, and then some more, and the
/// caller before its first job for the worker.
#[derive(Drop)]
struct EndlessCaller;

impl Holding for EndlessCaller {
    fn hold<R: Clock>(&self, seen: &Seen<'_, R>, worker: u32, job: u32) {
        if worker != CALLER {
            reach(&seen.first);
            seen.wait_until(|| is_reached(&seen.second));
            linger();
        } else if job == 2 {
            reach(&seen.second);
        } else {
            seen.wait_until(|| is_reached(&seen.first));
        }
    }
}

/// Sees whether the worker takes a job of phase 22 of `late-work` beside the first one, whose turn comes first there.
#[derive(Drop)]
struct LateWork;

impl Holding for LateWork {
    fn hold<R: Clock>(&self, seen: &Seen<'_, R>, worker: u32, _job: u32) {
        if worker != CALLER && seen.has_done(BEFORE_LATE) && !seen.has_done(BEFORE_LATE + 1) {
            reach(&seen.first);
        }
    }
}

/// The report of a run of a program with so many workers.
fn report_of<G: Gate + Sync>(
    rt: &(impl Threads + Wait + Sync),
    alloc: Global,
    program: &Program,
    workers: u32,
    gate: &G,
) -> Result<Report, Fail> {
    let file = program.file(alloc)?;
    let config = Config {
        bound: MAX_BOUND,
        quantum: None,
        shuffle: None,
        workers,
    };
    Ok(run(rt, alloc, &file, &[], &config, gate)?)
}

/// Asserts that runs of a program with so many workers end so, with this trace, and that no host thread waits in vain.
fn assert_runs<H: Holding + Sync>(
    rt: &(impl Abort + Clock + Threads + Wait + Sync),
    alloc: Global,
    (program, trace, status): (&Program, &str, u32),
    workers: u32,
    holding: &H,
) -> Result<(), Fail> {
    for _ in 0..TIMES {
        let gate = Held::by(rt, BEFORE, holding)?;
        let report = report_of(rt, alloc, program, workers, &gate)?;
        assert_eq!(rt; report.outcome, RunOutcome::Exit(status));
        assert_eq!(rt; trace_text(alloc, &report.trace)?.as_str(), trace);
        assert!(rt; !is_reached(&gate.seen.missed));
    }
    Ok(())
}

#[test]
fn jobs_run_side_by_side(rt: HostRuntime) -> Result<(), Fail> {
    assert_runs(&rt, rt.alloc(), (&RACE, RACE_TRACE, 2), 2, &Meeting)
}

/// Phase 2 of `signal` is the first one with two jobs. One turn comes before it.
#[test]
fn the_two_threads_of_a_program_run_side_by_side(rt: HostRuntime) -> Result<(), Fail> {
    for _ in 0..TIMES {
        let gate = Held::by(&rt, 1, &Meeting)?;
        let report = report_of(&rt, rt.alloc(), &SIGNAL, 2, &gate)?;
        assert_eq!(rt; report.outcome, RunOutcome::Exit(0));
        assert!(rt; is_reached(&gate.seen.second) && !is_reached(&gate.seen.missed));
    }
    Ok(())
}

#[test]
fn as_many_jobs_as_workers_run_side_by_side(rt: HostRuntime) -> Result<(), Fail> {
    let case = (&RACE, RACE_TRACE, 2);
    assert_runs(&rt, rt.alloc(), case, 3, &MeetingOfThree)
}

#[test]
fn turns_are_taken_beside_running_jobs(rt: HostRuntime) -> Result<(), Fail> {
    assert_runs(&rt, rt.alloc(), (&RACE, RACE_TRACE, 2), 2, &Overlap)
}

#[test]
fn a_keeper_exits_beside_an_endless_worker(rt: HostRuntime) -> Result<(), Fail> {
    let case = (&KEEPER_EXIT, KEEPER_EXIT_TRACE, 9);
    assert_runs(&rt, rt.alloc(), case, 2, &EndlessWorker)
}

#[test]
fn a_keeper_exits_beside_an_endless_job_of_the_caller(rt: HostRuntime) -> Result<(), Fail> {
    let case = (&KEEPER_EXIT, KEEPER_EXIT_TRACE, 9);
    assert_runs(&rt, rt.alloc(), case, 2, &EndlessCaller)
}

/// Asserts that a worker comes in at the long jobs of `late-work`, if so many phases are shared out from the beginning on.
/// It has the milliseconds of one job for that, and has to in one run at least.
fn assert_late_work(
    rt: &(impl Abort + Clock + Threads + Wait + Sync),
    alloc: Global,
    phases: u32,
) -> Result<(), Fail> {
    let holding = LateWork;
    let mut is_shared = false;
    for _ in 0..TIMES {
        let gate = SharingFirst {
            gate: Held::by(rt, BEFORE, &holding)?,
            phases,
        };
        let report = report_of(rt, alloc, &LATE_WORK, 2, &gate)?;
        assert_eq!(rt; report.outcome, RunOutcome::Exit(0));
        if is_reached(&gate.gate.seen.first) {
            is_shared = true;
        }
    }
    assert!(rt; is_shared);
    Ok(())
}

#[test]
fn a_phase_whose_first_job_the_caller_began_alone_is_shared_out(
    rt: HostRuntime,
) -> Result<(), Fail> {
    assert_late_work(&rt, rt.alloc(), 16)
}

#[test]
fn a_worker_is_started_once_a_job_is_long(rt: HostRuntime) -> Result<(), Fail> {
    assert_late_work(&rt, rt.alloc(), 0)
}
