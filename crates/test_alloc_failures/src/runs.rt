//! Runs, turn by turn.
ghost use Rattle.std.specs.Prelude.{IfOk, option_map};
ghost use Rattle.token.specs.Next.{IsNext};
ghost use Rattle.token.specs.RunInTurn.{point_of};
ghost use Rattle.token.specs.Serial.{IsNeeded};

use crate::answer::{Answer, digest_of, mixed};
use crate::failed::Failed;
use crate::picture::{Picture, answer_with};
use crate::programs::image_of;
use crate::retry::again;
use crate::standing::Standing;
use data_guest_programs::Program;
use elf32_reader::Image;
use std::alloc::Global;
use token::{Kept, Need, Next, RunOutcome, SegmentEnd, Serial, Start, Turn, next_turn};

/// More turns than any of the programs has.
pub const MOST_TURNS: u32 = 20;

/// How many instructions a thread may execute.
pub const BOUND: u64 = 1 << 40;

/// How far a run goes.
pub enum Way {
    /// It is opened alone.
    Opened,
    /// It goes to its end.
    ToEnd,
}

/// The start of a run of a program.
pub fn start_of(alloc: Global, program: &Program, input: &[u8]) -> Result<Start, Failed> {
    let image = image_of(alloc, program)?;
    start_in(alloc, &image, input)
}

/// The start of a run of an image.
fn start_in(alloc: Global, image: &Image, input: &[u8]) -> Result<Start, Failed> {
    again!(Start::open(alloc, image, input, BOUND, None, None))
}

/// A run.
pub fn run(alloc: Global, program: &Program, input: &[u8], way: &Way) -> Result<Answer, Failed> {
    let start = start_of(alloc, program, input)?;
    let mut serial = start.recorded_by(Kept::new(alloc));
    match way {
        Way::Opened => answer_of_open(alloc, &serial),
        Way::ToEnd => run_to_end(alloc, &mut serial),
    }
}

/// What a run is that was opened: its memory, and where its first thread begins.
fn answer_of_open(alloc: Global, serial: &Serial<Kept>) -> Result<Answer, Failed> {
    match serial.need() {
        Need::Segment(work) => answer_with(alloc, serial.now(), work.segment.hart.pc()),
        _ => Err(Failed::Other),
    }
}

/// Does the turns of a run, and answers what it came to.
fn run_to_end(alloc: Global, serial: &mut Serial<Kept>) -> Result<Answer, Failed> {
    for _ in 0..MOST_TURNS {
        if let Some(outcome) = one_turn(alloc, serial)? {
            return answer_of(alloc, serial, outcome);
        }
    }
    Err(Failed::Other)
}

/// Does the next turn, or answers how the run ended.
fn one_turn(alloc: Global, serial: &mut Serial<Kept>) -> Result<Option<RunOutcome>, Failed> {
    let before = Standing::of(alloc, serial)?;
    match next(alloc, serial, &before)? {
        Next::Turn(end) => {
            take(alloc, serial, end.as_ref(), &before)?;
            Ok(None)
        }
        Next::Ended(outcome) => Ok(Some(outcome)),
    }
}

/// What the next turn of a run is.
fn next(alloc: Global, serial: &Serial<Kept>, before: &Standing) -> Result<Next, Failed>
    ensures { IfOk result (IsNext (point_of serial.now)) }
{
    again!(next_turn(serial), before.is_of(alloc, serial)?)
}

/// Does a turn.
fn take(
    alloc: Global,
    serial: &mut Serial<Kept>,
    end: Option<&SegmentEnd>,
    before: &Standing,
) -> Result<Turn, Failed>
    requires { IsNeeded serial.old (option_map (λ end. end.now) end) }
{
    again!(serial.turn(end), before.is_of(alloc, serial)?)
}

/// What a run came to.
fn answer_of(alloc: Global, serial: &Serial<Kept>, outcome: RunOutcome) -> Result<Answer, Failed> {
    let RunOutcome::Exit(status) = outcome else {
        return Err(Failed::Other);
    };
    let memory = Picture::of(alloc, serial.now())?;
    Ok(Answer {
        count: serial.turns().len() as u64,
        value: status,
        digest: mixed(memory.digest(), digest_of(serial.output())),
    })
}
