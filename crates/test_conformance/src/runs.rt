//! How whole runs end: at limits, and where the configuration, the input or the file is refused.

use crate::fixtures::{CONFIG, Ending, WORKERS, assert_same, ending, ends};
use data_guest_programs::{CODE, SEVEN, file_of, file_of_headers};
use elf32_reader::ElfFault;
use hart::{Cause, Trap};
use runtime::{Config, MAX_BOUND, MAX_INPUT, MAX_WORKERS, RunFault, RunOutcome, Shuffle};
use std::alloc::{AllocError, Global};
use std::process::Abort;
use std::sync::Wait;
use std::test::Fail;
use std::thread::Threads;

/// As many instructions as a run may have, and no quantum.
const UNLIMITED: (u64, Option<u64>) = (MAX_BOUND, None);

/// A program of one word that is no instruction: of zeros, FENCE.I, and SLLI with bit 25 set.
static ILLEGAL: [u32; 3] = [0x0000_0000, 0x0000_100F, 0x0202_9293];

/// A bound and a quantum, and the pc at which the bound stops the program whose third and last instruction is the call exit,
/// or none where it exits.
static LIMITS: [(u64, Option<u64>, Option<u32>); 9] = [
    (MAX_BOUND, None, None),
    (3, None, None),
    (2, None, Some(0x0001_0008)),
    (1, None, Some(0x0001_0004)),
    (MAX_BOUND, Some(3), None),
    (MAX_BOUND, Some(2), None),
    (MAX_BOUND, Some(1), None),
    // The bound is tested ahead of the quantum.
    (2, Some(2), Some(0x0001_0008)),
    // The instructions of all its segments count.
    (2, Some(1), Some(0x0001_0008)),
];

/// Numbers outside their ranges: bound, quantum, workers.
static BAD_CONFIGS: [(u64, Option<u64>, u32); 6] = [
    (MAX_BOUND, None, 0),
    (MAX_BOUND, None, MAX_WORKERS + 1),
    (0, None, 1),
    (MAX_BOUND + 1, None, 1),
    (MAX_BOUND, Some(0), 1),
    (MAX_BOUND, Some(MAX_BOUND + 1), 1),
];

/// A schedule's number outside its range.
const NUMBER_0: Shuffle = Shuffle {
    number: 0,
    first: 1,
    last: 1,
    choices: 0,
};

/// A program that exits with the value that it finds in x10, and one that exits with that in x11.
static EXIT_BY_X10: [u32; 2] = [0x0010_0893, 0x0000_0073];

static EXIT_BY_X11: [u32; 3] = [0x0005_8513, 0x0010_0893, 0x0000_0073];

/// A schedule's number with a limit of the program's choices. It shuffles all phases.
const NUMBERED: Shuffle = Shuffle {
    number: 3_000_000_007,
    first: 1,
    last: u64::MAX,
    choices: 9,
};

/// A trap of thread 0.
fn trap(pc: u32, cause: Cause, value: u32) -> RunOutcome {
    RunOutcome::Trap {
        thread: 0,
        pc,
        trap: Trap { cause, value },
    }
}

/// Asserts how the run of a file on an input ends.
fn assert_ending(
    rt: &(impl Abort + Threads + Wait + Sync),
    alloc: Global,
    file: &[u8],
    input: &[u8],
    config: &Config,
    wanted: Ending,
) {
    let answer = ending(rt, alloc, file, input, config);
    assert_same(rt, &(*config, answer), &(*config, wanted));
}

/// Asserts how the runs of a file end under limits, with few and with many workers.
fn assert_ends(
    rt: &(impl Abort + Threads + Wait + Sync),
    alloc: Global,
    file: &[u8],
    (bound, quantum): (u64, Option<u64>),
    wanted: Ending,
) {
    for workers in WORKERS {
        let config = Config {
            bound,
            quantum,
            shuffle: None,
            workers,
        };
        assert_ending(rt, alloc, file, &[], &config, wanted);
    }
}

/// Asserts how the runs of `seven`, a file, end under limits.
fn assert_stops(
    rt: &(impl Abort + Threads + Wait + Sync),
    alloc: Global,
    seven: &[u8],
    &(bound, quantum, stop): &(u64, Option<u64>, Option<u32>),
) {
    let outcome = match stop {
        None => RunOutcome::Exit(7),
        Some(pc) => trap(pc, Cause::BoundReached, 0),
    };
    assert_ends(rt, alloc, seven, (bound, quantum), ends(outcome));
}

/// Asserts that a program of one word ends by a trap there.
fn assert_illegal(
    rt: &(impl Abort + Threads + Wait + Sync),
    alloc: Global,
    word: u32,
) -> Result<(), AllocError> {
    let file = file_of(alloc, &[word])?;
    let outcome = trap(CODE, Cause::IllegalInstruction, word);
    assert_ends(rt, alloc, &file, UNLIMITED, ends(outcome));
    Ok(())
}

#[test]
fn runs_stop_at_limits_and_illegal_words(rt: HostRuntime) -> Result<(), Fail> {
    for word in &ILLEGAL {
        assert_illegal(&rt, rt.alloc(), *word)?;
    }
    let file = SEVEN.file(rt.alloc())?;
    for row in &LIMITS {
        assert_stops(&rt, rt.alloc(), &file, row);
    }
    Ok(())
}

/// The first word is no instruction, and the second, at the entry, is EBREAK.
#[test]
fn a_run_begins_at_the_entry(rt: HostRuntime) -> Result<(), Fail> {
    let mut file = file_of(rt.alloc(), &[0, 0x0010_0073])?;
    if let Some(entry) = file.get_mut(24) {
        *entry = 4;
    }
    let outcome = trap(CODE + 4, Cause::Breakpoint, 0);
    assert_ends(&rt, rt.alloc(), &file, UNLIMITED, ends(outcome));
    Ok(())
}

/// Asserts that a file is refused so.
fn assert_refused(
    rt: &(impl Abort + Threads + Wait + Sync),
    alloc: Global,
    file: &[u8],
    fault: ElfFault,
) {
    assert_ends(rt, alloc, file, UNLIMITED, Err(RunFault::Elf(fault)));
}

/// Asserts that no byte of a file, and 51 of them, are refused, and what the refusal is told as.
fn assert_truncated(
    rt: &(impl Abort + Threads + Wait + Sync),
    alloc: Global,
    file: &[u8],
) -> Result<(), Fail> {
    assert_refused(rt, alloc, &[], ElfFault::Truncated);
    let cut = file.get(..51).ok_or("51 bytes")?;
    assert_refused(rt, alloc, cut, ElfFault::Truncated);
    let text = RunFault::Elf(ElfFault::Truncated).to_string(alloc)?;
    assert_same(rt, &text.as_str(), &"elf refused: 2 Truncated");
    Ok(())
}

/// The last file is a header without segments.
#[test]
fn refuses_files(rt: HostRuntime) -> Result<(), Fail> {
    assert_truncated(&rt, rt.alloc(), &SEVEN.file(rt.alloc())?)?;
    let header = file_of_headers(rt.alloc(), &[], &[])?;
    assert_refused(&rt, rt.alloc(), &header, ElfFault::BadEntry);
    Ok(())
}

/// Asserts with which status a program exits by a schedule.
fn assert_start(
    rt: &(impl Abort + Threads + Wait + Sync),
    alloc: Global,
    words: &[u32],
    shuffle: Option<Shuffle>,
    status: u32,
) -> Result<(), AllocError> {
    let file = file_of(alloc, words)?;
    let config = Config { shuffle, ..CONFIG };
    let wanted = ends(RunOutcome::Exit(status));
    assert_ending(rt, alloc, &file, &[], &config, wanted);
    Ok(())
}

/// A program finds the schedule's number in x10 and the limit of its choices in x11. Without a number both are 0.
#[test]
fn begins_with_the_schedule(rt: HostRuntime) -> Result<(), Fail> {
    assert_start(&rt, rt.alloc(), &EXIT_BY_X10, None, 0)?;
    assert_start(&rt, rt.alloc(), &EXIT_BY_X11, None, 0)?;
    assert_start(&rt, rt.alloc(), &EXIT_BY_X10, Some(NUMBERED), 3_000_000_007)?;
    assert_start(&rt, rt.alloc(), &EXIT_BY_X11, Some(NUMBERED), 9)?;
    Ok(())
}

/// Asserts that each bad configuration is refused, with a file and an input.
fn assert_bad_configs(
    rt: &(impl Abort + Threads + Wait + Sync),
    alloc: Global,
    file: &[u8],
    input: &[u8],
) {
    for (bound, quantum, workers) in BAD_CONFIGS {
        let config = Config {
            bound,
            quantum,
            shuffle: None,
            workers,
        };
        assert_ending(rt, alloc, file, input, &config, Err(RunFault::BadConfig));
    }
    let config = Config {
        shuffle: Some(NUMBER_0),
        ..CONFIG
    };
    assert_ending(rt, alloc, file, input, &config, Err(RunFault::BadConfig));
}

/// Asserts what is refused with a file: the configuration ahead of the input, and the input ahead of the file.
fn assert_refused_with(
    rt: &(impl Abort + Threads + Wait + Sync),
    alloc: Global,
    file: &[u8],
    large: &[u8],
) {
    assert_bad_configs(rt, alloc, file, &[]);
    assert_bad_configs(rt, alloc, file, large);
    let wanted = Err(RunFault::InputTooLarge);
    assert_ending(rt, alloc, file, large, &CONFIG, wanted);
}

/// Asserts that with a file an input of a byte too much is refused, and one of as many bytes as there may be isn't.
fn assert_inputs(
    rt: &(impl Abort + Threads + Wait + Sync),
    alloc: Global,
    seven: &[u8],
    large: &[u8],
) {
    assert!(rt; large.len() == 16_777_217);
    assert_refused_with(rt, alloc, seven, large);
    assert_refused_with(rt, alloc, &[], large);
    let wanted = ends(RunOutcome::Exit(7));
    assert_ending(rt, alloc, seven, &large[1..], &CONFIG, wanted);
}

/// The configuration is looked at ahead of the input, and the input ahead of the file.
#[test]
fn refuses_configurations_and_inputs(rt: HostRuntime) -> Result<(), Fail> {
    let seven = SEVEN.file(rt.alloc())?;
    let large = vec![in rt.alloc(); 0; MAX_INPUT + 1]?;
    assert_inputs(&rt, rt.alloc(), &seven, &large);
    Ok(())
}
