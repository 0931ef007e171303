//! What a gate is told of a run: each job before its first instruction, and each turn once it is done.

use data_guest_programs::{LATE_WORK, Program, RACE, SIGNAL};
use runtime::{Config, Gate, MAX_BOUND, run};
use std::alloc::Global;
use std::process::Abort;
use std::sync::Wait;
use std::sync::atomic::{AtomicU64, Ordering};
use std::test::Fail;
use std::thread::Threads;

/// How many passes and how many turns are kept.
const KEPT: usize = 16;

/// A job that is passed, and how many turns are done then at least and at most: those of earlier phases, and those before its
/// own in its phase.
type Pass = (u64, u64, u64);

/// The passes of `race`, and the threads of its turns.
static RACE_PASSES: [Pass; 6] = [
    (0, 0, 0),
    (0, 4, 4),
    (1, 4, 5),
    (2, 4, 6),
    (0, 7, 7),
    (0, 8, 8),
];

static RACE_TURNS: [u64; 9] = [0, 0, 0, 0, 0, 1, 2, 0, 0];

/// The passes of `signal`, and the threads of its turns. Neither keeper nor woken thread passes.
static SIGNAL_PASSES: [Pass; 7] = [
    (0, 0, 0),
    (0, 1, 1),
    (1, 1, 2),
    (0, 4, 4),
    (0, 5, 5),
    (0, 8, 8),
    (0, 9, 9),
];

static SIGNAL_TURNS: [u64; 10] = [0, 0, 1, 1, 0, 0, 1, 1, 1, 0];

/// How many jobs `late-work` has: of the main thread one in each of phases 1, 2, 23 and 24, and of its two threads one each
/// in phases 2 to 22. In phase 22 the caller finds that a job is long once it has begun it alone.
const LATE_JOBS: u64 = 46;

/// How many phases of `late-work` are shared out from the beginning on.
const SHARED: [u32; 3] = [0, 16, u32::MAX];

/// A gate that keeps what it is told, in order.
#[derive(Drop)]
struct Listening {
    passes: AtomicU64,
    /// Of each pass its worker.
    workers: [AtomicU64; KEPT],
    /// Of each pass its job.
    jobs: [AtomicU64; KEPT],
    /// How many turns were done at each pass.
    turns_at: [AtomicU64; KEPT],
    turns: AtomicU64,
    /// Of each turn its thread.
    threads: [AtomicU64; KEPT],
    first_shared: u32,
}

impl Listening {
    fn of(first_shared: u32) -> Self {
        Listening {
            passes: AtomicU64::new(0),
            workers: std::array::from_fn(|_| AtomicU64::new(0)),
            jobs: std::array::from_fn(|_| AtomicU64::new(0)),
            turns_at: std::array::from_fn(|_| AtomicU64::new(0)),
            turns: AtomicU64::new(0),
            threads: std::array::from_fn(|_| AtomicU64::new(0)),
            first_shared,
        }
    }
}

impl Gate for Listening {
    fn pass(&self, worker: u32, job: u32) {
        let place = self.passes.fetch_add(1, Ordering::SeqCst);
        keep(&self.workers, place, u64::from(worker));
        keep(&self.jobs, place, u64::from(job));
        keep(&self.turns_at, place, self.turns.load(Ordering::SeqCst));
    }

    fn turned(&self, thread: u32) {
        let place = self.turns.fetch_add(1, Ordering::SeqCst);
        keep(&self.threads, place, u64::from(thread));
    }

    fn first_shared(&self) -> u32 {
        self.first_shared
    }
}

/// Keeps a number at its place, where there is room.
fn keep(list: &[AtomicU64], place: u64, number: u64) {
    if let Some(kept) = list.get(place as usize) {
        kept.store(number, Ordering::SeqCst);
    }
}

/// The number at a place, 0 where there was no room.
fn kept(list: &[AtomicU64], place: usize) -> u64 {
    list.get(place)
        .map_or(0, |kept| kept.load(Ordering::SeqCst))
}

/// The host threads of a run.
#[derive(Clone, Copy)]
struct Hands {
    /// How many there may be.
    workers: u32,
    /// How many phases are shared out from the beginning on.
    first_shared: u32,
    /// How many take jobs at most.
    working: u32,
}

/// Asserts what a gate is told of the run of a program by such host threads.
fn assert_told(
    rt: &(impl Abort + Threads + Wait + Sync),
    alloc: Global,
    program: &Program,
    passes: &[Pass],
    turns: &[u64],
    hands: Hands,
) -> Result<(), Fail> {
    let config = Config {
        bound: MAX_BOUND,
        quantum: None,
        shuffle: None,
        workers: hands.workers,
    };
    let gate = Listening::of(hands.first_shared);
    run(rt, alloc, &program.file(alloc)?, &[], &config, &gate)?;
    let counts = [
        gate.passes.load(Ordering::SeqCst),
        gate.turns.load(Ordering::SeqCst),
    ];
    assert_eq!(rt;
        counts,
        [passes.len() as u64, turns.len() as u64],
        "{}",
        program.name
    );
    assert_passes(rt, &gate, passes, hands.working, program.name);
    for (place, thread) in turns.iter().enumerate() {
        assert_eq!(rt;
            kept(&gate.threads, place),
            *thread,
            "{} {place}",
            program.name
        );
    }
    Ok(())
}

/// Asserts that a gate was told of each of these passes, by one of so many host threads. One makes them in this order.
fn assert_passes(rt: &impl Abort, gate: &Listening, passes: &[Pass], working: u32, name: &str) {
    for (place, pass) in passes.iter().enumerate() {
        let is_told = if working == 1 {
            is_pass(gate, place, pass, working)
        } else {
            is_among(gate, passes.len(), pass, working)
        };
        assert!(rt; is_told, "{name} {place}");
    }
}

/// Whether one of the first passes of a gate is this one.
fn is_among(gate: &Listening, count: usize, pass: &Pass, workers: u32) -> bool {
    for place in 0..count {
        if is_pass(gate, place, pass, workers) {
            return true;
        }
    }
    false
}

/// Whether the pass at a place is this one, by one of so many workers.
fn is_pass(gate: &Listening, place: usize, (job, least, most): &Pass, workers: u32) -> bool {
    let turns = kept(&gate.turns_at, place);
    kept(&gate.workers, place) < u64::from(workers)
        && kept(&gate.jobs, place) == *job
        && *least <= turns
        && turns <= *most
}

#[test]
fn a_gate_is_told_of_each_job_and_turn(rt: HostRuntime) -> Result<(), Fail> {
    for workers in [1, 2, 3] {
        let hands = Hands {
            workers,
            first_shared: u32::MAX,
            working: workers,
        };
        let alloc = rt.alloc();
        assert_told(&rt, alloc, &RACE, &RACE_PASSES, &RACE_TURNS, hands)?;
        assert_told(&rt, alloc, &SIGNAL, &SIGNAL_PASSES, &SIGNAL_TURNS, hands)?;
    }
    Ok(())
}

#[test]
fn the_caller_takes_each_job_while_all_are_short(rt: HostRuntime) -> Result<(), Fail> {
    let hands = Hands {
        workers: 3,
        first_shared: 0,
        working: 1,
    };
    let alloc = rt.alloc();
    assert_told(&rt, alloc, &RACE, &RACE_PASSES, &RACE_TURNS, hands)?;
    assert_told(&rt, alloc, &SIGNAL, &SIGNAL_PASSES, &SIGNAL_TURNS, hands)
}

#[test]
fn no_job_is_told_twice(rt: HostRuntime) -> Result<(), Fail> {
    let file = LATE_WORK.file(rt.alloc())?;
    let config = Config {
        bound: MAX_BOUND,
        quantum: None,
        shuffle: None,
        workers: 2,
    };
    for first_shared in SHARED {
        let gate = Listening::of(first_shared);
        run(&rt, rt.alloc(), &file, &[], &config, &gate)?;
        let passes = gate.passes.load(Ordering::SeqCst);
        assert_eq!(rt; passes, LATE_JOBS, "{first_shared}");
    }
    Ok(())
}
