//! What a world lends at moments of a schedule. The run is `race`, in whose second phase threads 1 and 2 store their numbers to one
//! byte: thread N does so by its second instruction.

use data_guest_programs::RACE;
use data_guest_programs::schedules::{EARLY_TURN, Schedule, THREE_WORKERS};
use elf32_reader::read;
use guest_memory::GuestMemory;
use schedule::Event;
use schedule_core::World;
use schedule_text::parse;
use std::alloc::Global;
use std::process::Abort;
use std::test::Fail;
use token::RunOutcome;

/// The byte that the threads store to.
const BYTE: u32 = 0x0002_0000;

/// How many instructions a thread may execute.
const BOUND: u64 = 1 << 40;

/// What a world lends after the first events of a schedule.
#[derive(Clone, Copy)]
struct Moment {
    /// How many events have happened.
    events: usize,
    /// How many turns were done.
    turns: usize,
    /// The byte in the memory that all share.
    shared: u8,
    /// Of each of three workers the pc of its job and the byte in that job's memory.
    jobs: [Option<(u32, u8)>; 3],
    outcome: Option<RunOutcome>,
}

/// The schedule with the turn of thread 0 beside the half-run job of thread 1.
const EARLY_MOMENTS: [Moment; 10] = [
    Moment {
        events: 0,
        turns: 0,
        shared: 0,
        jobs: [None, None, None],
        outcome: None,
    },
    Moment {
        events: 20,
        turns: 4,
        shared: 0,
        jobs: [Some((0x0001_0028, 0)), Some((0x0001_0054, 1)), None],
        outcome: None,
    },
    Moment {
        events: 24,
        turns: 4,
        shared: 0,
        jobs: [None, Some((0x0001_0054, 1)), None],
        outcome: None,
    },
    Moment {
        events: 25,
        turns: 5,
        shared: 0,
        jobs: [None, Some((0x0001_0054, 1)), None],
        outcome: None,
    },
    Moment {
        events: 27,
        turns: 5,
        shared: 0,
        jobs: [None, Some((0x0001_0058, 1)), None],
        outcome: None,
    },
    Moment {
        events: 28,
        turns: 5,
        shared: 0,
        jobs: [None, None, None],
        outcome: None,
    },
    Moment {
        events: 29,
        turns: 6,
        shared: 1,
        jobs: [None, None, None],
        outcome: None,
    },
    Moment {
        events: 30,
        turns: 6,
        shared: 1,
        jobs: [Some((0x0001_004c, 0)), None, None],
        outcome: None,
    },
    Moment {
        events: 32,
        turns: 6,
        shared: 1,
        jobs: [Some((0x0001_0054, 2)), None, None],
        outcome: None,
    },
    Moment {
        events: 48,
        turns: 9,
        shared: 2,
        jobs: [None, None, None],
        outcome: Some(RunOutcome::Exit(2)),
    },
];

/// The schedule that mixes the instructions of three threads.
const MIXED_MOMENTS: [Moment; 5] = [
    Moment {
        events: 25,
        turns: 4,
        shared: 0,
        jobs: [
            Some((0x0001_0030, 0)),
            Some((0x0001_0054, 1)),
            Some((0x0001_0054, 2)),
        ],
        outcome: None,
    },
    Moment {
        events: 33,
        turns: 4,
        shared: 0,
        jobs: [None, None, None],
        outcome: None,
    },
    Moment {
        events: 35,
        turns: 6,
        shared: 1,
        jobs: [None, None, None],
        outcome: None,
    },
    Moment {
        events: 36,
        turns: 7,
        shared: 2,
        jobs: [None, None, None],
        outcome: None,
    },
    Moment {
        events: 37,
        turns: 7,
        shared: 2,
        jobs: [Some((0x0001_0034, 2)), None, None],
        outcome: None,
    },
];

/// A world of `race` of which nothing has happened.
fn world_of_race(alloc: Global) -> Result<World, Fail> {
    let image = read(alloc, RACE.file(alloc)?.as_slice())?;
    Ok(World::open(alloc, &image, &[], BOUND, None, None, 3)?)
}

/// The events of a schedule.
fn events_of(alloc: Global, schedule: &Schedule) -> Result<Vec<Event>, Fail> {
    Ok(parse(alloc, schedule.whole_text(alloc)?.as_bytes())?)
}

/// The pc of a worker's job, and the byte in that job's memory.
fn job_of(world: &World, worker: u32) -> Option<(u32, u8)> {
    let (hart, view) = world.private(worker)?;
    Some((hart.pc(), view.load8(BYTE).ok()?))
}

/// Checks all that a world lends.
fn check_lent(rt: &impl Abort, world: &World, moment: &Moment) {
    let events = moment.events;
    assert_eq!(rt; world.turns().len(), moment.turns, "turns after {events}");
    assert_eq!(rt;
        world.now().byte(BYTE),
        Some(moment.shared),
        "the byte after {events}"
    );
    assert_eq!(rt;
        world.outcome(),
        moment.outcome,
        "the outcome after {events}"
    );
    for worker in 0..3 {
        let job = moment.jobs[worker as usize];
        assert_eq!(rt;
            job_of(world, worker),
            job,
            "worker {worker} after {events}"
        );
    }
    assert!(rt; world.private(3).is_none(), "a worker that isn't there");
}

/// Checks what a world lends at each of some moments, with the events before them handed over as one list.
fn check_moments<H: Abort + AllocGlobal>(
    rt: &H,
    schedule: &Schedule,
    moments: &[Moment],
) -> Result<(), Fail> {
    let events = events_of(rt.alloc(), schedule)?;
    for moment in moments {
        let mut world = world_of_race(rt.alloc())?;
        let before = events.get(..moment.events).ok_or("too few events")?;
        assert!(rt; world.apply_all(before).is_ok());
        check_lent(rt, &world, moment);
    }
    Ok(())
}

#[test]
fn a_half_run_job_keeps_its_memory_apart(rt: HostRuntime) -> Result<(), Fail> {
    let moments = EARLY_MOMENTS;
    check_moments(&rt, &EARLY_TURN, moments.as_slice())
}

#[test]
fn mixed_jobs_keep_their_memories_apart(rt: HostRuntime) -> Result<(), Fail> {
    let moments = MIXED_MOMENTS;
    check_moments(&rt, &THREE_WORKERS, moments.as_slice())
}
