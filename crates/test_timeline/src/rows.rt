//! The positions of a run, one after another, as a run by written events of one worker makes them.
ghost use Rattle.std.specs.Prelude.{◌<◌, ◌≤◌, ◌^◌, OnOk, IfSome};

use anyhow::{Result, anyhow};
use data_guest_programs::Program;
use elf32_reader::{Image, read};
use guest_memory::GuestMemory;
use hart::Hart;
use schedule::Event;
use schedule_core::World;
use std::alloc::{AllocError, Global};
use timeline::{Spacing, Timeline};
use token::{Start, TurnStop};

/// The word that is looked at.
pub const WORD: u32 = 0x0002_0000;

/// How many instructions a thread executes at most.
pub const MOST: u64 = 3000;

/// How a program is run.
#[derive(Clone, Copy, Debug)]
pub struct Limits {
    pub bound: u64,
    pub quantum: Option<u64>,
}

/// Checks that the numbers are in range.
fn check(limits: &Limits) -> Result<()>
    ensures bound { OnOk result (limits.now.bound ≤ 2 ^ 40) }
    ensures some { OnOk result (0 < limits.now.bound) }
    ensures quantum { OnOk result (IfSome limits.now.quantum (λ q. q ≤ 2 ^ 40)) }
    ensures some_quantum { OnOk result (IfSome limits.now.quantum (λ q. 0 < q)) }
{
    if limits.bound == 0 || MOST < limits.bound {
        return Err(anyhow!("a bound out of range"));
    }
    match limits.quantum {
        Some(quantum) if quantum == 0 || MOST < quantum => {
            Err(anyhow!("a quantum out of range"))
        }
        _ => Ok(()),
    }
}

/// What is looked at in a thread's turn.
#[derive(Clone, Copy, PartialEq, Eq)]
pub struct Own {
    pub pc: u32,
    /// The sum of its registers, each times its number and one.
    pub registers: u64,
    pub word: Option<u32>,
}

/// What is looked at in a position.
#[derive(Clone, Copy, PartialEq, Eq)]
pub struct Row {
    /// How many turns are done.
    pub done: usize,
    /// How many instructions of the turn were executed.
    pub steps: u64,
    /// The word in the shared memory.
    pub shared: Option<u32>,
    /// What stands in the turn's thread, none if the run by events doesn't lend it.
    pub own: Option<Own>,
}

/// The image of a program.
fn image_of(alloc: Global, program: &Program) -> Result<Image> {
    let file = program.file(alloc)?;
    read(alloc, &file).map_err(|fault| anyhow!("elf refused: {fault}"))
}

/// The word of memory at an address, as a thread sees it, none if a byte of it isn't mapped.
pub fn word_at(timeline: &Timeline, thread: u32, address: u32) -> Option<u32> {
    Some(u32::from_le_bytes([
        timeline.byte(thread, address)?,
        timeline.byte(thread, address.wrapping_add(1))?,
        timeline.byte(thread, address.wrapping_add(2))?,
        timeline.byte(thread, address.wrapping_add(3))?,
    ]))
}

/// A timeline of a program.
pub fn timeline_of(
    alloc: Global,
    program: &Program,
    limits: &Limits,
    spacing: Spacing,
) -> Result<Timeline> {
    check(limits)?;
    let image = image_of(alloc, program)?;
    let start = Start::open(alloc, &image, b"abc", limits.bound, limits.quantum, None)?;
    Ok(Timeline::open(alloc, start, spacing)?)
}

/// What stands in a hart.
pub fn own_of(hart: &Hart, word: Option<u32>) -> Own {
    let mut registers = 0u64;
    for i in 0..32 {
        registers = registers.wrapping_add(u64::from(hart.reg(i)).wrapping_mul(i as u64 + 1));
    }
    Own {
        pc: hart.pc(),
        registers,
        word,
    }
}

/// A run by events, and how many instructions of its turn were executed.
#[derive(Drop)]
struct Walk {
    world: World,
    steps: u64,
    /// It is the turn of a worker's job.
    has_job: bool,
}

/// The positions of a run, the first one first.
pub fn rows_of(alloc: Global, program: &Program, limits: &Limits) -> Result<Vec<Row>> {
    let mut walk = Walk::open(alloc, program, limits)?;
    let mut rows = Vec::new(alloc);
    for _ in 0..1_000_000 {
        rows.push(walk.row())?;
        if !walk.go_on(&mut rows)? {
            break;
        }
    }
    Ok(rows)
}

impl Walk {
    /// The run of a program by one worker, of which nothing has happened.
    fn open(alloc: Global, program: &Program, limits: &Limits) -> Result<Self> {
        check(limits)?;
        let image = image_of(alloc, program)?;
        let world = World::open(alloc, &image, b"abc", limits.bound, limits.quantum, None, 1)?;
        Ok(Walk {
            world,
            steps: 0,
            has_job: false,
        })
    }

    /// The present position.
    fn row(&self) -> Row {
        let own = match self.world.private(0) {
            Some((hart, view)) if self.has_job => Some(own_of(hart, view.load32(WORD).ok())),
            _ => None,
        };
        Row {
            done: self.world.turns().len(),
            steps: self.steps,
            shared: self.world.now().load32(WORD).ok(),
            own,
        }
    }

    /// Goes on by a step. False if there is none.
    fn go_on(&mut self, rows: &mut Vec<Row>) -> Result<bool, AllocError> {
        if !self.has_job && self.world.apply(Event::Hold).is_ok() {
            return Ok(self.stepped(rows));
        }
        if !self.has_job {
            if self.world.apply(Event::Turn).is_ok() {
                return Ok(self.turned(rows));
            }
            if !self.draws() {
                return Ok(false);
            }
            let _ = rows.pop();
            rows.push(self.row())?;
        }
        if self.world.apply(Event::Step(0)).is_err() {
            return Ok(false);
        }
        let _posted = self.world.apply(Event::Post(0));
        Ok(self.stepped(rows))
    }

    /// Draws the next job.
    fn draws(&mut self) -> bool {
        self.has_job = self.world.apply(Event::Draw(0)).is_ok() && self.world.private(0).is_some();
        self.has_job
    }

    /// After an instruction of a turn, or its end.
    fn stepped(&mut self, rows: &mut Vec<Row>) -> bool {
        if self.world.apply(Event::Turn).is_ok() {
            return self.turned(rows);
        }
        self.steps = self.steps.saturating_add(1);
        true
    }

    /// After a turn. The step that uses up a quantum is the instruction with the commit.
    fn turned(&mut self, rows: &mut Vec<Row>) -> bool {
        self.has_job = false;
        self.steps = 0;
        match self.world.turns().last() {
            Some(turn) => match turn.stop {
                TurnStop::Quantum { .. } => {
                    let _ = rows.pop();
                    true
                }
                TurnStop::Trap { .. } => false,
                _ => true,
            },
            None => false,
        }
    }
}
