//! Loads and stores.

use crate::fixtures::{assert_row, assert_same, assert_status, hart_at, memory_of};
use data_guest_programs::{CODE, DATA, ECALL, EXIT, load};
use hart::{Stop, run_to_stop};
use paged_memory::WholeMemory;
use std::alloc::Global;
use std::process::Abort;
use std::sync::Wait;
use std::test::Fail;
use std::thread::Threads;

/// `sw x6,0(x5)`.
const STORE: u32 = 0x0062_A023;

/// `lw x10,0(x5)`.
const LOAD: u32 = 0x0002_A503;

/// A load of x10 from near x5, the word that is stored at x5 before, and what x10 then holds.
static LOADS: [(u32, u32, u32); 15] = [
    // LB.
    (0x0002_8503, 0x80FF_7F01, 0x0000_0001),
    (0x0012_8503, 0x80FF_7F01, 0x0000_007F),
    (0x0022_8503, 0x80FF_7F01, 0xFFFF_FFFF),
    (0x0032_8503, 0x80FF_7F01, 0xFFFF_FF80),
    (0x0042_8503, 0x80FF_7F01, 0x0000_0000),
    // LH.
    (0x0002_9503, 0x80FF_7F01, 0x0000_7F01),
    (0x0022_9503, 0x80FF_7F01, 0xFFFF_80FF),
    // LW.
    (0x0002_A503, 0x80FF_7F01, 0x80FF_7F01),
    (0x0042_A503, 0x80FF_7F01, 0x0000_0000),
    (0x0002_A503, 0x7FFF_FFFF, 0x7FFF_FFFF),
    // LBU.
    (0x0002_C503, 0x80FF_7F01, 0x0000_0001),
    (0x0022_C503, 0x80FF_7F01, 0x0000_00FF),
    (0x0032_C503, 0x80FF_7F01, 0x0000_0080),
    // LHU.
    (0x0002_D503, 0x80FF_7F01, 0x0000_7F01),
    (0x0022_D503, 0x80FF_7F01, 0x0000_80FF),
];

/// A store of x6 near x5, what x6 holds, and the word that stands at x5 then; before, its bytes are 55.
static STORES: [(u32, u32, u32); 6] = [
    // SB.
    (0x0062_8023, 0x1234_8765, 0x5555_5565),
    (0x0062_80A3, 0x1234_8765, 0x5555_6555),
    (0x0062_81A3, 0x1234_8765, 0x6555_5555),
    // SH.
    (0x0062_9023, 0x1234_8765, 0x5555_8765),
    (0x0062_9123, 0x1234_8765, 0x8765_5555),
    // SW.
    (0x0062_A023, 0x1234_8765, 0x1234_8765),
];

/// `sb x6,0(x5)`, `sh x6,2(x5)`, `sw x6,4(x5)` and `ecall`.
static IN_ORDER: [u32; 4] = [0x0062_8023, 0x0062_9123, 0x0062_A223, ECALL];

/// What they store of 0x12348765 at `DATA`, and the byte after it.
static STORED: [u8; 9] = [0x65, 0x00, 0x65, 0x87, 0x65, 0x87, 0x34, 0x12, 0x00];

/// Asserts what a load reads of a word.
fn assert_load(
    rt: &(impl Abort + Threads + Wait + Sync),
    alloc: Global,
    &(word, value, wanted): &(u32, u32, u32),
) {
    let words = [STORE, word, EXIT[0], EXIT[1]];
    assert_status(rt, alloc, (DATA, value), &words, wanted);
}

/// Asserts what a store leaves in memory.
fn assert_store(
    rt: &(impl Abort + Threads + Wait + Sync),
    alloc: Global,
    &(word, value, wanted): &(u32, u32, u32),
) {
    let [upper, lower] = load(6, value);
    let words = [STORE, upper, lower, word, LOAD, EXIT[0], EXIT[1]];
    assert_status(rt, alloc, (DATA, 0x5555_5555), &words, wanted);
}

#[test]
fn loads_and_stores(rt: HostRuntime) {
    for row in &LOADS {
        assert_load(&rt, rt.alloc(), row);
    }
    for row in &STORES {
        assert_store(&rt, rt.alloc(), row);
    }
}

/// Asserts that these bytes stand at `DATA`.
fn assert_stored(rt: &impl Abort, memory: &WholeMemory, stored: &[u8]) {
    for (address, byte) in (DATA..).zip(stored) {
        assert_row(rt, (address, 0), &memory.byte(address), &Some(*byte));
    }
}

/// Asserts what the program of `IN_ORDER` does in its memory.
fn assert_stores(rt: &impl Abort, memory: &mut WholeMemory) -> Result<(), Fail> {
    let mut hart = hart_at(CODE, (DATA, 0x1234_8765));
    let stopped = run_to_stop(&mut hart, memory, 100, None)?;
    assert_same(rt, &stopped, &(Stop::Ecall, 4));
    assert_stored(rt, memory, &STORED);
    Ok(())
}

#[test]
fn stores_bytes_in_order(rt: HostRuntime) -> Result<(), Fail> {
    let mut memory = memory_of(rt.alloc(), &IN_ORDER)?;
    assert_stores(&rt, &mut memory)
}
