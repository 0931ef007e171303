//! Instructions that trap.

use crate::fixtures::{Step, answer_on, assert_row, ends, hart_at, memory_of, step_among, step_at};
use data_guest_programs::{CODE, DATA};
use hart::{Cause, Trap};
use paged_memory::WholeMemory;
use runtime::RunOutcome;
use std::alloc::Global;
use std::process::Abort;
use std::sync::Wait;
use std::test::Fail;
use std::thread::Threads;

/// Where the instructions of `TRAPS` stand. x5 holds 9 there.
const PLACE: u32 = 0x0001_0010;

/// `sw x6,0(x5)`.
const STORE: u32 = 0x0062_A023;

/// The cause of an instruction's trap, the instruction, what x6 holds, and the trap's value.
static TRAPS: [(Cause, u32, u32, u32); 41] = [
    // Jumps and taken branches to no multiple of 4.
    (
        Cause::TargetMisaligned,
        0x0003_02E7,
        0x0001_0002,
        0x0001_0002,
    ),
    (
        Cause::TargetMisaligned,
        0x0033_02E7,
        0x0001_0000,
        0x0001_0002,
    ),
    (Cause::TargetMisaligned, 0x0062_8163, 9, 0x0001_0012),
    (Cause::TargetMisaligned, 0xFE62_9FE3, 6, 0x0001_000E),
    (Cause::TargetMisaligned, 0x0062_C363, 10, 0x0001_0016),
    (Cause::TargetMisaligned, 0x0062_D363, 6, 0x0001_0016),
    (Cause::TargetMisaligned, 0x0062_E363, 10, 0x0001_0016),
    (Cause::TargetMisaligned, 0x0062_F363, 6, 0x0001_0016),
    (Cause::TargetMisaligned, 0x0020_02EF, 0, 0x0001_0012),
    (Cause::TargetMisaligned, 0x7FFF_F06F, 0, 0x0011_000E),
    // Words that are no instruction: zeros, ones, FENCE.I, SLLI with bit 25 set, RDTIME, MRET, LR.W, and one
    // whose lowest bits are 01.
    (Cause::IllegalInstruction, 0x0000_0000, 0, 0),
    (Cause::IllegalInstruction, 0xFFFF_FFFF, 0, 0xFFFF_FFFF),
    (Cause::IllegalInstruction, 0x0000_100F, 0, 0x0000_100F),
    (Cause::IllegalInstruction, 0x0202_9293, 0, 0x0202_9293),
    (Cause::IllegalInstruction, 0xC010_2573, 0, 0xC010_2573),
    (Cause::IllegalInstruction, 0x3020_0073, 0, 0x3020_0073),
    (Cause::IllegalInstruction, 0x1002_A2AF, 0, 0x1002_A2AF),
    (Cause::IllegalInstruction, 0x0000_0001, 0, 1),
    // EBREAK.
    (Cause::Breakpoint, 0x0010_0073, 6, 0),
    // Loads at no multiple of their width, also where they would be denied.
    (Cause::LoadMisaligned, 0x0013_1503, 0x0002_0000, 0x0002_0001),
    (Cause::LoadMisaligned, 0xFFF3_5503, 0x0002_0000, 0x0001_FFFF),
    (Cause::LoadMisaligned, 0x0023_2503, 0x0002_0000, 0x0002_0002),
    (Cause::LoadMisaligned, 0x0013_2003, 0x0002_0000, 0x0002_0001),
    (Cause::LoadMisaligned, 0x0003_2503, 0x0003_0001, 0x0003_0001),
    // Loads where nothing is mapped, also into x0.
    (Cause::LoadDenied, 0x0003_0503, 0x0003_0000, 0x0003_0000),
    (Cause::LoadDenied, 0x0003_1503, 0x0003_0000, 0x0003_0000),
    (Cause::LoadDenied, 0x0003_2003, 0x0003_0000, 0x0003_0000),
    (Cause::LoadDenied, 0xFFF3_4503, 0, 0xFFFF_FFFF),
    (Cause::LoadDenied, 0x0003_5503, 0x8000_0000, 0x8000_0000),
    (Cause::LoadDenied, 0x0003_2503, 0x2000_0000, 0x2000_0000),
    (Cause::LoadDenied, 0xFFC3_2503, 0x7FFC_0000, 0x7FFB_FFFC),
    // Stores at no multiple of their width, also where they would be denied.
    (
        Cause::StoreMisaligned,
        0x0053_10A3,
        0x0002_0000,
        0x0002_0001,
    ),
    (
        Cause::StoreMisaligned,
        0x0053_2123,
        0x0002_0000,
        0x0002_0002,
    ),
    (
        Cause::StoreMisaligned,
        0x0053_2023,
        0x0003_0002,
        0x0003_0002,
    ),
    (
        Cause::StoreMisaligned,
        0xFE53_1FA3,
        0x0001_0002,
        0x0001_0001,
    ),
    // Stores into the code, and where nothing is mapped.
    (Cause::StoreDenied, 0x0053_0023, 0x0001_0010, 0x0001_0010),
    (Cause::StoreDenied, 0x0053_1023, 0x0001_0010, 0x0001_0010),
    (Cause::StoreDenied, 0x0053_2023, 0x0001_0010, 0x0001_0010),
    (Cause::StoreDenied, 0xFE53_0FA3, 0x0001_0000, 0x0000_FFFF),
    (Cause::StoreDenied, 0x0053_2023, 0x0002_1000, 0x0002_1000),
    (Cause::StoreDenied, 0x0053_2023, 0x8000_0000, 0x8000_0000),
];

/// Addresses that no instruction can be fetched from.
static NOT_EXECUTABLE: [u32; 7] = [
    0x0000_0000,
    0x0000_FFFC,
    0x0001_1000,
    0x0002_0000,
    0x2000_0000,
    0x7FFF_FFF0,
    0xFFFF_FFFC,
];

/// Where a store of 0xFFFFFFFF is refused, the cause, and the byte that is there.
static REFUSED_STORES: [(u32, Cause, Option<u8>); 3] = [
    (CODE, Cause::StoreDenied, Some(0x23)),
    (0x0002_0002, Cause::StoreMisaligned, Some(0)),
    (0x0002_1000, Cause::StoreDenied, None),
];

/// Asserts that an instruction traps so by itself, and that a program ends so that puts the words into x5 and x6 first.
fn assert_traps(
    rt: &(impl Abort + Threads + Wait + Sync),
    alloc: Global,
    &(cause, word, x6, value): &(Cause, u32, u32, u32),
) -> Result<(), Fail> {
    let trap = Trap { cause, value };
    let step = step_among(alloc, &[0, 0, 0, 0, word], PLACE, (9, x6))?;
    assert_row(rt, (word, x6), &step, &trap_at(PLACE, (9, x6), trap));
    let answer = answer_on(rt, alloc, (9, x6), &[word]);
    assert_row(rt, (word, x6), &answer, &ends(end_by(PLACE, trap)));
    Ok(())
}

/// The trap of an instruction at an address with x5 and x6. The hart stays as it was.
fn trap_at(address: u32, operands: (u32, u32), trap: Trap) -> Step {
    (Err(Some(trap)), hart_at(address, operands))
}

/// The end of a run by a trap of thread 0.
fn end_by(pc: u32, trap: Trap) -> RunOutcome {
    RunOutcome::Trap {
        thread: 0,
        pc,
        trap,
    }
}

#[test]
fn instructions_trap(rt: HostRuntime) -> Result<(), Fail> {
    for row in &TRAPS {
        assert_traps(&rt, rt.alloc(), row)?;
    }
    Ok(())
}

/// Asserts that the fetch at an address traps.
fn assert_fetch_traps(rt: &impl Abort, memory: &mut WholeMemory, value: u32) {
    let trap = Trap {
        cause: Cause::FetchDenied,
        value,
    };
    let step = step_at(memory, value, (0, 0));
    assert_row(rt, (value, 0), &step, &trap_at(value, (0, 0), trap));
}

/// Asserts that a store traps, and changes no byte.
fn assert_store_traps(
    rt: &impl Abort,
    memory: &mut WholeMemory,
    &(value, cause, byte): &(u32, Cause, Option<u8>),
) {
    let operands = (value, 0xFFFF_FFFF);
    let step = step_at(memory, CODE, operands);
    let trap = trap_at(CODE, operands, Trap { cause, value });
    assert_row(rt, operands, &step, &trap);
    assert_row(rt, operands, &memory.byte(value), &byte);
}

/// Asserts both in a memory.
fn assert_accesses_trap(rt: &impl Abort, memory: &mut WholeMemory) {
    for value in &NOT_EXECUTABLE {
        assert_fetch_traps(rt, memory, *value);
    }
    for row in &REFUSED_STORES {
        assert_store_traps(rt, memory, row);
    }
}

/// A jump to an address that is a multiple of 4 is made, and the fetch there traps. A refused store changes no byte.
#[test]
fn fetches_trap_and_refused_stores_change_nothing(rt: HostRuntime) -> Result<(), Fail> {
    let mut memory = memory_of(rt.alloc(), &[STORE])?;
    assert_accesses_trap(&rt, &mut memory);
    let trap = Trap {
        cause: Cause::FetchDenied,
        value: DATA,
    };
    let answer = answer_on(&rt, rt.alloc(), (DATA, 0), &[0x0002_8067]);
    assert_row(&rt, (DATA, 0), &answer, &ends(end_by(DATA, trap)));
    Ok(())
}
