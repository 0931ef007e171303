//! Jobs that end by each stop there is, by one worker and by several, and by threads of the caller's own.

ghost use Rattle.std.specs.Prelude.{◌≡◌, ◌<◌, ◌≤◌, length, All, IfOk};
ghost use Rattle.claim_table.specs.Logs.{most_seats, new_log};
ghost use Rattle.parallel_phase.specs.Work.{IsWorkOf};
ghost use denote.Param.Send.{IsSync};

use crate::phases::fates::{Fate, are};
use crate::phases::fixtures::{BOUND, address_of, base_of_file};
use crate::phases::shown::{show, show_at};
use anyhow::Result;
use claim_table::DrawSeat;
use data_guest_programs::file_of;
use hart::{Cause, Hart, Stop, Trap};
use paged_memory::Snapshot;
use parallel_phase::{Job, ParallelPhase, WorkDone, run_phase};
use phase_jobs::OpenGate;
use std::alloc::{AllocError, Global};
use std::thread;
use std::thread::Threads;

/// How often threads of the caller's own work at the jobs.
const TIMES: u32 = 20;

/// The code of the jobs. Each begins at one of these instructions.
const WORDS: [u32; 12] = [
    0x0010_0893, // addi x17,x0,1
    0x0000_0073, // ecall
    0x0010_0073, // ebreak
    0x0000_0000, // no instruction
    0x0020_006F, // jal x0, to an address that is no multiple of 4
    0x0000_0067, // jalr x0,0(x0)
    0x0010_2283, // lw x5,1(x0)
    0x0000_2283, // lw x5,0(x0)
    0x0000_20A3, // sw x0,1(x0)
    0x0000_2023, // sw x0,0(x0)
    0x0000_006F, // jal x0, to itself
    0x0000_0073, // ecall
];

/// A job, and what becomes of it.
#[derive(Clone, Copy)]
struct Row {
    /// The instruction that it begins at.
    instruction: u16,
    /// How many instructions it may execute.
    left: u64,
    quantum: Option<u64>,
    fate: Fate,
}

/// A job that ends by a call.
const CALL: Row = Row {
    instruction: 11,
    left: BOUND,
    quantum: None,
    fate: Fate::Ran(Stop::Ecall, 1, 0x0001_002C),
};

/// A job that ends by its quantum.
const QUANTUM: Row = Row {
    instruction: 10,
    left: BOUND,
    quantum: Some(70_000),
    fate: Fate::Ran(Stop::Quantum, 70_000, 0x0001_0028),
};

/// A job that ends by its bound.
const BOUNDED: Row = Row {
    instruction: 10,
    left: 70_000,
    quantum: None,
    fate: Fate::Ran(
        Stop::Trap(Trap {
            cause: Cause::BoundReached,
            value: 0,
        }),
        70_000,
        0x0001_0028,
    ),
};

/// The jobs, each at another stop.
static ROWS: [Row; 13] = [
    Row {
        instruction: 0,
        left: BOUND,
        quantum: None,
        fate: Fate::Ran(Stop::Ecall, 2, 0x0001_0004),
    },
    CALL,
    Row {
        instruction: 2,
        left: BOUND,
        quantum: None,
        fate: Fate::Ran(
            Stop::Trap(Trap {
                cause: Cause::Breakpoint,
                value: 0,
            }),
            0,
            0x0001_0008,
        ),
    },
    Row {
        instruction: 3,
        left: BOUND,
        quantum: None,
        fate: Fate::Ran(
            Stop::Trap(Trap {
                cause: Cause::IllegalInstruction,
                value: 0,
            }),
            0,
            0x0001_000C,
        ),
    },
    Row {
        instruction: 4,
        left: BOUND,
        quantum: None,
        fate: Fate::Ran(
            Stop::Trap(Trap {
                cause: Cause::TargetMisaligned,
                value: 0x0001_0012,
            }),
            0,
            0x0001_0010,
        ),
    },
    Row {
        instruction: 5,
        left: BOUND,
        quantum: None,
        fate: Fate::Ran(
            Stop::Trap(Trap {
                cause: Cause::FetchDenied,
                value: 0,
            }),
            1,
            0,
        ),
    },
    Row {
        instruction: 6,
        left: BOUND,
        quantum: None,
        fate: Fate::Ran(
            Stop::Trap(Trap {
                cause: Cause::LoadMisaligned,
                value: 1,
            }),
            0,
            0x0001_0018,
        ),
    },
    Row {
        instruction: 7,
        left: BOUND,
        quantum: None,
        fate: Fate::Ran(
            Stop::Trap(Trap {
                cause: Cause::LoadDenied,
                value: 0,
            }),
            0,
            0x0001_001C,
        ),
    },
    Row {
        instruction: 8,
        left: BOUND,
        quantum: None,
        fate: Fate::Ran(
            Stop::Trap(Trap {
                cause: Cause::StoreMisaligned,
                value: 1,
            }),
            0,
            0x0001_0020,
        ),
    },
    Row {
        instruction: 9,
        left: BOUND,
        quantum: None,
        fate: Fate::Ran(
            Stop::Trap(Trap {
                cause: Cause::StoreDenied,
                value: 0,
            }),
            0,
            0x0001_0024,
        ),
    },
    BOUNDED,
    QUANTUM,
    Row {
        instruction: 10,
        left: 5,
        quantum: Some(5),
        fate: Fate::Ran(
            Stop::Trap(Trap {
                cause: Cause::BoundReached,
                value: 0,
            }),
            5,
            0x0001_0028,
        ),
    },
];

/// Prints the rows of stops.
pub fn show_stops<R: Print + Threads + Sync>(rt: &R, alloc: Global) -> Result<()> {
    let base = base(alloc)?;
    show_each_stop(rt, alloc, &base)?;
    let is_so = threads_of_the_callers_own(rt, alloc, &base)?;
    show(rt, "threads of the caller's own", is_so)
}

/// The memory of the jobs.
fn base(alloc: Global) -> Result<Snapshot> {
    let file = file_of(alloc, WORDS.as_slice())?;
    base_of_file(alloc, &file)
}

/// Prints the row of each job.
fn show_each_stop<R: Print + Threads + Sync>(rt: &R, alloc: Global, base: &Snapshot) -> Result<()> {
    let mut number: u32 = 0;
    for row in &ROWS {
        show_at(rt, "stop", number, is_stop(rt, alloc, base, row)?)?;
        number = number.wrapping_add(1);
    }
    Ok(())
}

/// The job of a row.
fn job_of(row: &Row) -> Job {
    Job {
        hart: Hart::new(address_of(row.instruction), 0, 0, 0),
        left: row.left,
        quantum: row.quantum,
    }
}

/// Whether the job of a row ends so alone, and by 1, 2 and 4 workers as the last one after three that don't end the run.
fn is_stop<R: Threads + Sync>(
    rt: &R,
    alloc: Global,
    base: &Snapshot,
    row: &Row,
) -> Result<bool, AllocError> {
    for workers in [1, 2, 4] {
        if !is_last(rt, alloc, base, row, workers)? {
            return Ok(false);
        }
    }
    is_alone(alloc, base, row)
}

/// Whether the job of a row ends so in a phase of its own.
fn is_alone(alloc: Global, base: &Snapshot, row: &Row) -> Result<bool, AllocError> {
    let (phase, mut seats) = ParallelPhase::open(alloc, &[job_of(row)], 1, base)?;
    match phase.one(&mut seats[0], &OpenGate)? {
        Some(drawn) => Ok(are(&[drawn.outcome], &[row.fate])),
        None => Ok(false),
    }
}

/// Whether the job of a row ends so after three that don't end the run.
fn is_last<R: Threads + Sync>(
    rt: &R,
    alloc: Global,
    base: &Snapshot,
    row: &Row,
    workers: u32,
) -> Result<bool, AllocError>
    requires { (0 < workers) × (workers ≤ most_seats) }
{
    let jobs = [job_of(&CALL), job_of(&QUANTUM), job_of(&CALL), job_of(row)];
    let outcomes = run_phase(rt, alloc, &jobs, workers, &OpenGate, base)?;
    Ok(are(&outcomes, &[CALL.fate, QUANTUM.fate, CALL.fate, row.fate]))
}

/// The works of all seats, each in a thread of its own where one can be started.
fn work_side_by_side<R: Threads + Sync>(
    rt: &R,
    phase: &ParallelPhase,
    seats: Vec<DrawSeat>,
) -> Result<Vec<WorkDone>, AllocError>
    requires { All (λ seat. (seat.row ≡ phase.now.row) × (seat.log ≡ new_log 1)) seats.items }
    ensures long { IfOk result (λ works. length works.items ≡ length seats.items) }
    ensures works { IfOk result (λ works. All (IsWorkOf phase.now) works.items) }
{
    thread::map_vec(
        rt,
        seats,
        &|seat: DrawSeat|
            requires { (seat.row ≡ phase.now.row) × (seat.log ≡ new_log 1) }
            ensures { IsWorkOf phase.entry.now result }
        { phase.work(seat, &OpenGate) },
    )
}

fn threads_of_the_callers_own<R: Threads + Sync>(
    rt: &R,
    alloc: Global,
    base: &Snapshot,
) -> Result<bool, AllocError> {
    for _ in 0..TIMES {
        if !works_once(rt, alloc, base)? {
            return Ok(false);
        }
    }
    Ok(true)
}

/// Whether four jobs end as they should by three threads of the caller's own.
fn works_once<R: Threads + Sync>(
    rt: &R,
    alloc: Global,
    base: &Snapshot,
) -> Result<bool, AllocError> {
    let jobs = [
        job_of(&CALL),
        job_of(&QUANTUM),
        job_of(&QUANTUM),
        job_of(&BOUNDED),
    ];
    let (phase, seats) = ParallelPhase::open(alloc, &jobs, 3, base)?;
    let works = work_side_by_side(rt, &phase, seats)?;
    let outcomes = phase.collect(works)?;
    let wanted = [CALL.fate, QUANTUM.fate, QUANTUM.fate, BOUNDED.fate];
    Ok(are(&outcomes, &wanted))
}
