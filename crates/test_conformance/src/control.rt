//! Branches and jumps, and instructions that write no register.

use crate::fixtures::{assert_row, assert_status, hart_at, step_among};
use data_guest_programs::{CODE, EXIT};
use std::alloc::Global;
use std::process::Abort;
use std::sync::Wait;
use std::test::Fail;
use std::thread::Threads;

/// A branch on x5 and x6, over the instruction after it, what x5 and x6 hold, and whether it is taken.
static BRANCHES: [(u32, u32, u32, bool); 34] = [
    // BEQ.
    (0x0062_8463, 0x0000_0005, 0x0000_0005, true),
    (0x0062_8463, 0x0000_0005, 0x0000_0006, false),
    (0x0062_8463, 0x8000_0000, 0x0000_0000, false),
    // BNE.
    (0x0062_9463, 0x0000_0005, 0x0000_0005, false),
    (0x0062_9463, 0x0000_0005, 0x0000_0006, true),
    (0x0062_9463, 0x8000_0000, 0x0000_0000, true),
    // BLT.
    (0x0062_C463, 0x0000_0005, 0x0000_0005, false),
    (0x0062_C463, 0x0000_0005, 0x0000_0006, true),
    (0x0062_C463, 0x0000_0006, 0x0000_0005, false),
    (0x0062_C463, 0x8000_0000, 0x7FFF_FFFF, true),
    (0x0062_C463, 0x7FFF_FFFF, 0x8000_0000, false),
    (0x0062_C463, 0xFFFF_FFFF, 0x0000_0000, true),
    (0x0062_C463, 0x0000_0000, 0xFFFF_FFFF, false),
    // BGE.
    (0x0062_D463, 0x0000_0005, 0x0000_0005, true),
    (0x0062_D463, 0x0000_0005, 0x0000_0006, false),
    (0x0062_D463, 0x0000_0006, 0x0000_0005, true),
    (0x0062_D463, 0x8000_0000, 0x7FFF_FFFF, false),
    (0x0062_D463, 0x7FFF_FFFF, 0x8000_0000, true),
    (0x0062_D463, 0xFFFF_FFFF, 0x0000_0000, false),
    (0x0062_D463, 0x0000_0000, 0xFFFF_FFFF, true),
    // BLTU.
    (0x0062_E463, 0x0000_0005, 0x0000_0005, false),
    (0x0062_E463, 0x0000_0005, 0x0000_0006, true),
    (0x0062_E463, 0x0000_0006, 0x0000_0005, false),
    (0x0062_E463, 0x8000_0000, 0x7FFF_FFFF, false),
    (0x0062_E463, 0x7FFF_FFFF, 0x8000_0000, true),
    (0x0062_E463, 0xFFFF_FFFF, 0x0000_0000, false),
    (0x0062_E463, 0x0000_0000, 0xFFFF_FFFF, true),
    // BGEU.
    (0x0062_F463, 0x0000_0005, 0x0000_0005, true),
    (0x0062_F463, 0x0000_0005, 0x0000_0006, false),
    (0x0062_F463, 0x0000_0006, 0x0000_0005, true),
    (0x0062_F463, 0x8000_0000, 0x7FFF_FFFF, true),
    (0x0062_F463, 0x7FFF_FFFF, 0x8000_0000, false),
    (0x0062_F463, 0xFFFF_FFFF, 0x0000_0000, true),
    (0x0062_F463, 0x0000_0000, 0xFFFF_FFFF, false),
];

/// Where the instructions of `STEPS` stand.
const PLACE: u32 = 0x0001_0020;

/// An instruction at `PLACE`, what x5 and x6 hold, the address of the next instruction, and what x5 holds there.
static STEPS: [(u32, u32, u32, u32, u32); 17] = [
    // JALR, with bit 0 of the target cleared.
    (0xFFF3_02E7, 9, 0x0001_1006, 0x0001_1004, 0x0001_0024),
    (0x0043_0067, 9, 0x0001_2000, 0x0001_2004, 9),
    (0x0043_0067, 9, 0xFFFF_FFFC, 0, 9),
    // JAL.
    (0x0080_02EF, 9, 0, 0x0001_0028, 0x0001_0024),
    (0xFE1F_F2EF, 9, 0, 0x0001_0000, 0x0001_0024),
    (0x000F_F2EF, 9, 0, 0x0010_F020, 0x0001_0024),
    (0x0000_006F, 9, 0, 0x0001_0020, 9),
    (0x8000_006F, 9, 0, 0xFFF1_0020, 9),
    // BEQ, BNE and BLT, backward and far forward.
    (0xFE62_88E3, 9, 9, 0x0001_0010, 9),
    (0x8062_9063, 9, 6, 0x0000_F020, 9),
    (0x7E62_CEE3, 9, 10, 0x0001_101C, 9),
    // BEQ that is not taken, with the offset 2.
    (0x0062_8163, 9, 6, 0x0001_0024, 9),
    // FENCE, whose field rd is x5.
    (0x8330_028F, 9, 0, 0x0001_0024, 9),
    (0x0FF3_028F, 9, 7, 0x0001_0024, 9),
    // ADDI to x0, and LW into it.
    (0x0012_8013, 9, 0, 0x0001_0024, 9),
    (0x0003_2003, 9, 0x0002_0000, 0x0001_0024, 9),
    // JALR of x5 and x5.
    (0x0002_82E7, 0x0001_0011, 0, 0x0001_0010, 0x0001_0024),
];

/// A loop back: `addi x10,x10,3`, `addi x5,x5,-1`, `bne x5,x0,-8`, and the call exit.
static LOOP: [u32; 5] = [0x0035_0513, 0xFFF2_8293, 0xFE02_9CE3, EXIT[0], EXIT[1]];

/// JAL over JALR to a function and back: `jal x1,16`, the call exit, a word that is skipped, and at the function
/// `addi x10,x1,0` and `jalr x0,0(x1)`.
static FUNCTION: [u32; 6] = [0x0100_00EF, EXIT[0], EXIT[1], 0, 0x0000_8513, 0x0000_8067];

/// Asserts whether a branch is taken, after `addi x10,x0,1` and ahead of `addi x10,x0,0`.
fn assert_branch(
    rt: &(impl Abort + Threads + Wait + Sync),
    alloc: Global,
    &(word, a, b, taken): &(u32, u32, u32, bool),
) {
    let words = [0x0010_0513, word, 0x0000_0513, EXIT[0], EXIT[1]];
    assert_status(rt, alloc, (a, b), &words, u32::from(taken));
}

#[test]
fn branches_and_calls(rt: HostRuntime) {
    for branch in &BRANCHES {
        assert_branch(&rt, rt.alloc(), branch);
    }
    assert_status(&rt, rt.alloc(), (5, 0), &LOOP, 15);
    assert_status(&rt, rt.alloc(), (0, 0), &FUNCTION, CODE + 0x14);
}

/// Asserts what an instruction at `PLACE` leaves. It changes no register but x5.
fn assert_step(
    rt: &impl Abort,
    alloc: Global,
    &(word, x5, x6, next, after): &(u32, u32, u32, u32, u32),
) -> Result<(), Fail> {
    let words = [0, 0, 0, 0, 0, 0, 0, 0, word];
    let step = step_among(alloc, &words, PLACE, (x5, x6))?;
    assert_row(rt, (word, x6), &step, &(Ok(()), hart_at(next, (after, x6))));
    Ok(())
}

#[test]
fn steps(rt: HostRuntime) -> Result<(), Fail> {
    for row in &STEPS {
        assert_step(&rt, rt.alloc(), row)?;
    }
    Ok(())
}
