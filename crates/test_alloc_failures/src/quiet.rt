//! The calls that take no memory.
ghost use Rattle.std.specs.Prelude.{◌≡◌, ◌%◌};

use crate::answer::{Answer, mixed};
use crate::failed::Failed;
use crate::runs::start_of;
use crate::snapshots::snapshot_with_heap;
use crate::tables;
use crate::worlds::world_amid;
use commit::{Patch, changed, count_page, merge_page};
use data_guest_programs::schedules::EARLY_TURN;
use data_guest_programs::{DATA, ECHO};
use guest_memory::GuestMemory;
use guest_memory::layout::{IMAGE_START, STACK_POINTER};
use hart::{Hart, Stepped, Stop, run_to_stop, step};
use paged_memory::Snapshot;
use schedule_core::World;
use std::alloc::Global;
use token::{Kept, Need, Next, Serial, next_turn};
use twins::View;

/// After how many events of the schedule with an early turn that turn is done and a job is half run.
const HALF_RUN: usize = 25;

/// What the calls work on.
#[derive(Drop)]
pub struct Quiet {
    memories: Memories,
    /// A run of `echo` that has read its input.
    serial: Serial<Kept>,
    /// A run with a half-run job.
    world: World,
}

/// The memories that the calls work on.
#[derive(Drop)]
struct Memories {
    /// A view with a private page of data, and one of the stack.
    view: View,
    /// A snapshot that no view was opened on.
    spare: Option<Snapshot>,
    patch: Patch,
}

impl Memories {
    /// Makes the memories.
    fn set_up(alloc: Global) -> Result<Self, Failed> {
        let (view, spare) = view_and_spare(alloc)?;
        let patch = Patch::of(alloc, &view)?;
        Ok(Memories {
            view,
            spare: Some(spare),
            patch,
        })
    }
}

/// A group of calls that take no memory.
#[derive(Clone, Copy)]
pub enum QuietCase {
    Loads,
    Stores,
    Open,
    Cells,
    Pages,
    Words,
    Names,
    Harts,
    Threads,
    Objects,
    Segment,
    Run,
    World,
}

/// The groups with their names.
pub const QUIET_CASES: [(&str, QuietCase); 13] = [
    ("loads and fetches", QuietCase::Loads),
    ("stores to private pages", QuietCase::Stores),
    ("View::open", QuietCase::Open),
    ("byte and perm", QuietCase::Cells),
    ("count_page and merge_page", QuietCase::Pages),
    ("decode and encode", QuietCase::Words),
    ("numbers and names of calls", QuietCase::Names),
    ("harts and their calls", QuietCase::Harts),
    ("threads by themselves", QuietCase::Threads),
    ("objects by themselves", QuietCase::Objects),
    ("step and run_to_stop", QuietCase::Segment),
    ("what a run lends", QuietCase::Run),
    ("what a world lends", QuietCase::World),
];

impl Quiet {
    /// Makes all that the calls work on.
    pub fn set_up(alloc: Global) -> Result<Self, Failed> {
        let memories = Memories::set_up(alloc)?;
        let serial = run_of_echo(alloc)?;
        let world = world_amid(alloc, &EARLY_TURN, HALF_RUN)?;
        Ok(Quiet {
            memories,
            serial,
            world,
        })
    }

    /// Performs a group of calls.
    pub fn perform(&mut self, case: QuietCase) -> Result<Answer, Failed> {
        match case {
            QuietCase::Loads => self.loads(),
            QuietCase::Stores => self.stores(),
            QuietCase::Open => self.open(),
            QuietCase::Cells => Ok(self.cells()),
            QuietCase::Pages => Ok(pages()),
            QuietCase::Words => Ok(tables::words()),
            QuietCase::Names => Ok(tables::names()),
            QuietCase::Harts => Ok(tables::harts()),
            QuietCase::Threads => Ok(tables::threads()),
            QuietCase::Objects => Ok(tables::objects()),
            QuietCase::Segment => self.segment(),
            QuietCase::Run => Ok(self.run()),
            QuietCase::World => self.world(),
        }
    }

    /// Loads and fetches of a private page, of one of the base, and of one that isn't mapped.
    fn loads(&self) -> Result<Answer, Failed> {
        let view = &self.memories.view;
        let mut digest = 0;
        let mut denied: u64 = 0;
        for address in [DATA, IMAGE_START, 0] {
            let words = words_at(view, address);
            denied = denied.wrapping_add(denied_of(&words));
            digest = digest_of_words(digest, &words);
        }
        Ok(Answer {
            count: denied,
            value: view.load32(IMAGE_START).unwrap_or(0),
            digest,
        })
    }

    /// Stores of each width to a page that is private.
    fn stores(&mut self) -> Result<Answer, Failed> {
        let view = &mut self.memories.view;
        if stores_each(view) {
            Ok(answer_of_stores(view))
        } else {
            Err(Failed::Other)
        }
    }

    /// A view opened.
    fn open(&mut self) -> Result<Answer, Failed> {
        let Some(spare) = self.memories.spare.take() else {
            return Err(Failed::Other);
        };
        let view = View::open(spare);
        Ok(answer_of_open(&view, &self.memories.patch))
    }

    /// Bytes and permissions of a snapshot: of the image, of data, of the stack, and where nothing is mapped.
    fn cells(&self) -> Answer {
        let memory = self.serial.now();
        let mut digest = 0;
        let mut mapped: u64 = 0;
        for address in [IMAGE_START, DATA, STACK_POINTER, 0] {
            digest = mixed(digest, u64::from(memory.byte(address).unwrap_or(0)));
            if let Some(perm) = memory.perm(address) {
                mapped = mapped.wrapping_add(1);
                digest = mixed(digest, u64::from(perm.write));
            }
        }
        Answer {
            count: mapped,
            value: u32::from(memory.byte(IMAGE_START).unwrap_or(0)),
            digest,
        }
    }

    /// A program's first instruction, and then all up to its first call.
    fn segment(&mut self) -> Result<Answer, Failed> {
        let mut hart = Hart::new(IMAGE_START, STACK_POINTER, 0, 0);
        let Stepped::Next = step(&mut hart, &mut self.memories.view) else {
            return Err(Failed::Other);
        };
        match run_to_stop(&mut hart, &mut self.memories.view, 1000, None) {
            Ok((Stop::Ecall, count)) => Ok(Answer {
                count,
                value: hart.pc(),
                digest: u64::from(hart.reg(17)),
            }),
            _ => Err(Failed::Other),
        }
    }

    /// What a run needs, and all that it lends.
    fn run(&self) -> Answer {
        let serial = &self.serial;
        let mut digest = 0;
        for number in [
            serial.list().len(),
            serial.threads().len(),
            serial.output().len(),
            serial.fresh().len(),
            serial.turns().len(),
            serial.changes().len(),
        ] {
            digest = mixed(digest, number as u64);
        }
        let waits = matches!(serial.need(), Need::Segment(_));
        Answer {
            count: serial.phase(),
            value: serial.base().load32(DATA).unwrap_or(0) ^ serial.now().load32(DATA).unwrap_or(0),
            digest: mixed(digest, u64::from(waits)),
        }
    }

    /// All that a world with a half-run job lends.
    fn world(&self) -> Result<Answer, Failed> {
        let world = &self.world;
        let (None, None, Some((hart, view))) = (world.outcome(), world.private(0), world.private(1))
        else {
            return Err(Failed::Other);
        };
        let shared = world.now().load32(DATA).unwrap_or(0);
        let own = view.load32(DATA).unwrap_or(0);
        Ok(Answer {
            count: world.turns().len() as u64,
            value: hart.pc(),
            digest: mixed(u64::from(shared), u64::from(own)),
        })
    }
}

/// A view with a byte stored to two pages, and a snapshot as the one that it was opened on.
fn view_and_spare(alloc: Global) -> Result<(View, Snapshot), Failed> {
    let snapshot = snapshot_with_heap(alloc)?;
    let spare = snapshot.try_clone()?;
    Ok((view_with_bytes(snapshot)?, spare))
}

/// A view of a snapshot, with a byte stored to a page of data and to one of the stack.
fn view_with_bytes(snapshot: Snapshot) -> Result<View, Failed> {
    let mut view = View::open(snapshot);
    store_bytes(&mut view)?;
    Ok(view)
}

/// Stores a byte to a page of data and to one of the stack.
fn store_bytes(view: &mut View) -> Result<(), Failed> {
    if view.store8(DATA, 1).is_ok() && view.store8(STACK_POINTER, 1).is_ok() {
        Ok(())
    } else {
        Err(Failed::SetUp)
    }
}

/// What loads of each width and a fetch give at an address.
fn words_at(view: &View, address: u32) -> [Option<u32>; 4]
    requires { address % 4 ≡ 0 }
{
    [
        view.load8(address).ok().map(u32::from),
        view.load16(address).ok().map(u32::from),
        view.load32(address).ok(),
        view.fetch(address),
    ]
}

/// How many accesses gave nothing.
fn denied_of(words: &[Option<u32>]) -> u64 {
    words.iter().filter(|word| word.is_none()).count() as u64
}

/// A digest that goes on with what accesses gave.
fn digest_of_words(digest: u64, words: &[Option<u32>]) -> u64 {
    let mut digest = digest;
    for word in words {
        digest = mixed(digest, u64::from(word.unwrap_or(0)));
    }
    digest
}

/// Whether stores of each width to the page of data are made.
fn stores_each(view: &mut View) -> bool {
    let first = view.store8(DATA + 1, 2).is_ok();
    let second = view.store16(DATA + 2, 0x0403).is_ok();
    let third = view.store32(DATA + 4, 0x0807_0605).is_ok();
    first && second && third
}

/// What a view is after the stores.
fn answer_of_stores(view: &View) -> Answer {
    Answer {
        count: view.private_pages().len() as u64,
        value: view.load32(DATA).unwrap_or(0),
        digest: u64::from(view.load32(DATA + 4).unwrap_or(0)),
    }
}

/// What a view is that was opened, and how many bytes a patch changes.
fn answer_of_open(view: &View, patch: &Patch) -> Answer {
    Answer {
        count: view.private_pages().len() as u64,
        value: view.load32(IMAGE_START).unwrap_or(0),
        digest: changed(patch),
    }
}

/// A run of `echo` that has done two turns.
fn run_of_echo(alloc: Global) -> Result<Serial<Kept>, Failed> {
    let start = start_of(alloc, &ECHO, b"ab")?;
    let mut serial = start.recorded_by(Kept::new(alloc));
    take_two_turns(&mut serial)?;
    Ok(serial)
}

/// Does a run's next two turns.
fn take_two_turns(serial: &mut Serial<Kept>) -> Result<(), Failed> {
    take_turn(serial)?;
    take_turn(serial)
}

/// Does a run's next turn.
fn take_turn(serial: &mut Serial<Kept>) -> Result<(), Failed> {
    match next_turn(serial)? {
        Next::Turn(end) => {
            serial.turn(end.as_ref())?;
            Ok(())
        }
        Next::Ended(_) => Ok(()),
    }
}

/// Pages that differ in four bytes, counted and merged.
fn pages() -> Answer {
    let copy = [1; 4096];
    let mut mine = [1; 4096];
    for place in [0, 31, 32, 4095] {
        mine[place] = 2;
    }
    let mut now = [9; 4096];
    merge_page(&mut now, &copy, &mine);
    let merged = now.iter().filter(|byte| **byte == 2).count();
    Answer {
        count: u64::from(count_page(&copy, &mine)),
        value: u32::from(now[31]),
        digest: merged as u64,
    }
}
