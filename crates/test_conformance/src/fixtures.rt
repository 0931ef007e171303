//! How programs of a few words are run, and how what a row gives is compared.

ghost use Rattle.std.specs.Prelude.{◌-◌, ◌^◌, ◌<◌};

use data_guest_programs::{Program, file_of, operands};
use elf32_reader::read;
use hart::{Hart, Stepped, Trap, step};
use paged_memory::WholeMemory;
use runtime::{
    Config, Gate, MAX_BOUND, OpenGate, Report, RunFault, RunOutcome, Sink, run, run_into,
};
use std::alloc::{AllocError, Global};
use std::fmt::Debug;
use std::process::Abort;
use std::sync::Wait;
use std::test::Fail;
use std::thread::Threads;

/// As many instructions as a run may have, no quantum, and one worker.
pub const CONFIG: Config = Config {
    bound: MAX_BOUND,
    quantum: None,
    shuffle: None,
    workers: 1,
};

/// How many workers a run is tried with. Their number changes no answer.
pub static WORKERS: [u32; 3] = [1, 4, 64];

/// How a run ended, or why there is no report of it.
pub type Ending = Result<RunOutcome, RunFault>;

/// What an instruction came to, and the hart then: it was executed, or it traps, or it is neither.
pub type Step = (Result<(), Option<Trap>>, Hart);

/// How the run of a file ends.
pub fn ending(
    rt: &(impl Threads + Wait + Sync),
    alloc: Global,
    file: &[u8],
    input: &[u8],
    config: &Config,
) -> Ending {
    Ok(run(rt, alloc, file, input, config, &OpenGate)?.outcome)
}

/// The answer of a run that ends so.
pub fn ends(outcome: RunOutcome) -> Ending {
    Ok(outcome)
}

/// The report of the run of a program whose output goes to a sink.
pub fn report_into<G: Gate + Sync, S: Sink>(
    rt: &(impl Threads + Wait + Sync),
    alloc: Global,
    program: &Program,
    workers: u32,
    gate: &G,
    sink: &mut S,
) -> Result<Report, RunFault>
    requires { S.failed sink.old < 2 ^ 64 - 1 }
{
    let file = program.file(alloc)?;
    let config = Config { workers, ..CONFIG };
    run_into(rt, alloc, &file, &[], &config, gate, sink)
}

/// How the run of a program ends whose output goes to a sink.
pub fn ending_into<S: Sink>(
    rt: &(impl Threads + Wait + Sync),
    alloc: Global,
    program: &Program,
    workers: u32,
    sink: &mut S,
) -> Ending
    requires { S.failed sink.old < 2 ^ 64 - 1 }
{
    Ok(report_into(rt, alloc, program, workers, &OpenGate, sink)?.outcome)
}

/// The memory of a file of these words.
pub fn memory_of(alloc: Global, words: &[u32]) -> Result<WholeMemory, Fail> {
    let file = file_of(alloc, words)?;
    Ok(WholeMemory::of_image(alloc, &read(alloc, &file)?)?)
}

/// A hart at the word of an address, with x5 and x6. Its other registers are 0.
pub fn hart_at(address: u32, (x5, x6): (u32, u32)) -> Hart {
    let mut hart = Hart::new(address / 4 * 4, 0, 0, 0);
    hart.set_reg(5, x5);
    hart.set_reg(6, x6);
    hart
}

/// What the instruction at an address of a memory comes to, with x5 and x6.
pub fn step_at(memory: &mut WholeMemory, address: u32, operands: (u32, u32)) -> Step {
    let mut hart = hart_at(address, operands);
    let came_to = match step(&mut hart, memory) {
        Stepped::Next => Ok(()),
        Stepped::Trap(trap) => Err(Some(trap)),
        Stepped::Ecall | Stepped::OutOfMemory(_) => Err(None),
    };
    (came_to, hart)
}

/// What the instruction at an address comes to in a memory of these words, with x5 and x6.
pub fn step_among(
    alloc: Global,
    words: &[u32],
    address: u32,
    operands: (u32, u32),
) -> Result<Step, Fail> {
    let mut memory = memory_of(alloc, words)?;
    Ok(step_at(&mut memory, address, operands))
}

/// The file of a program that puts two words into x5 and x6 and then has these words.
fn file_on(alloc: Global, (a, b): (u32, u32), words: &[u32]) -> Result<Vec<u8>, AllocError> {
    let mut all = Vec::new(alloc);
    all.extend_from_slice(&operands(a, b))?;
    all.extend_from_slice(words)?;
    file_of(alloc, &all)
}

/// How the program ends that puts two words into x5 and x6 and then has these words.
pub fn answer_on(
    rt: &(impl Threads + Wait + Sync),
    alloc: Global,
    operands: (u32, u32),
    words: &[u32],
) -> Ending {
    ending(rt, alloc, &file_on(alloc, operands, words)?, &[], &CONFIG)
}

/// Asserts that the program that puts two words into x5 and x6 and then has these words exits with this status.
pub fn assert_status(
    rt: &(impl Abort + Threads + Wait + Sync),
    alloc: Global,
    operands: (u32, u32),
    words: &[u32],
    status: u32,
) {
    let answer = answer_on(rt, alloc, operands, words);
    let wanted = ends(RunOutcome::Exit(status));
    assert_eq!(rt; answer, wanted, "{words:?} on {operands:?}");
}

/// Asserts that a row, which is told by two words, gives what it should.
pub fn assert_row<T: Eq + Debug>(
    rt: &impl Abort,
    (word, operand): (u32, u32),
    given: &T,
    wanted: &T,
) {
    assert!(rt;
        *given == *wanted,
        "{word:08x} of {operand:x}: {given:?} and not {wanted:?}"
    );
}

/// Asserts that what is given is what should be.
pub fn assert_same<T: Eq + Debug>(rt: &impl Abort, given: &T, wanted: &T) {
    assert_eq!(rt; *given, *wanted);
}
