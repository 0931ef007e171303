//! Programs whose threads store to one page.

use crate::program::{PAGE, Program};

/// Thread 0 locks mutex 0, creates two threads after these instructions, unlocks, joins both and exits with the byte at
/// 0x00020000.
const PRELUDE: &str = "\
00010000: 00010437 lui x8,0x00010
00010004: 00500893 addi x17,x0,5
00010008: 00000073 ecall
0001000c: 00300893 addi x17,x0,3
00010010: 04c40513 addi x10,x8,76
00010014: 00000073 ecall
00010018: 04c40513 addi x10,x8,76
0001001c: 00000073 ecall
00010020: 00600893 addi x17,x0,6
00010024: 00000073 ecall
00010028: 00400893 addi x17,x0,4
0001002c: 00100513 addi x10,x0,1
00010030: 00000073 ecall
00010034: 00200513 addi x10,x0,2
00010038: 00000073 ecall
0001003c: 00100893 addi x17,x0,1
00010040: 000204b7 lui x9,0x00020
00010044: 0004c503 lbu x10,0(x9)
00010048: 00000073 ecall
";

/// Threads 1 and 2 store their numbers to one byte.
pub const RACE: Program = Program {
    name: "race",
    listing: &[
        PRELUDE,
        "\
0001004c: 000204b7 lui x9,0x00020
00010050: 00b48023 sb x11,0(x9)
00010054: 00200893 addi x17,x0,2
00010058: 00000073 ecall
",
    ],
    zeros: &PAGE,
};

/// Threads 1 and 2 add one to the word at 0x00020000 1000 times each, under mutex 0.
pub const COUNTER: Program = Program {
    name: "counter",
    listing: &[
        PRELUDE,
        "\
0001004c: 000204b7 lui x9,0x00020
00010050: 3e800393 addi x7,x0,1000
00010054: 00500893 addi x17,x0,5
00010058: 00000513 addi x10,x0,0
0001005c: 00000073 ecall
00010060: 0004a283 lw x5,0(x9)
00010064: 00128293 addi x5,x5,1
00010068: 0054a023 sw x5,0(x9)
0001006c: 00600893 addi x17,x0,6
00010070: 00000073 ecall
00010074: fff38393 addi x7,x7,-1
00010078: fc039ee3 bne x7,x0,0x00010054
0001007c: 00200893 addi x17,x0,2
00010080: 00000073 ecall
",
    ],
    zeros: &PAGE,
};

/// Thread 2 meets an illegal word at once, and thread 1 an EBREAK after a long loop.
pub const LATE_TRAP: Program = Program {
    name: "late-trap",
    listing: &[
        PRELUDE,
        "\
0001004c: fff58293 addi x5,x11,-1
00010050: 00029a63 bne x5,x0,0x00010064
00010054: 0007a337 lui x6,0x0007a
00010058: fff30313 addi x6,x6,-1
0001005c: fe031ee3 bne x6,x0,0x00010058
00010060: 00100073 ebreak
00010064: 00000000 .word 0x00000000
",
    ],
    zeros: &PAGE,
};

/// Threads 1 and 2 call sync twenty times each, and then count down for long, in phase 22.
pub const LATE_WORK: Program = Program {
    name: "late-work",
    listing: &[
        PRELUDE,
        "\
0001004c: 01400313 addi x6,x0,20
00010050: 00e00893 addi x17,x0,14
00010054: 00000073 ecall
00010058: fff30313 addi x6,x6,-1
0001005c: fe031ae3 bne x6,x0,0x00010050
00010060: 0007a3b7 lui x7,0x0007a
00010064: fff38393 addi x7,x7,-1
00010068: fe039ee3 bne x7,x0,0x00010064
0001006c: 00200893 addi x17,x0,2
00010070: 00000073 ecall
",
    ],
    zeros: &PAGE,
};

/// The trace of `race`.
pub const RACE_TRACE: &str = "\
1 0 lock 00000000 00000000 00000000 -> 0 changed=0 ran=3
1 0 create 0001004c 00000000 00000000 -> 0 00000001 changed=0 ran=3
1 0 create 0001004c 00000001 00000000 -> 0 00000002 changed=0 ran=2
1 0 unlock 00000000 00000002 00000000 -> 0 changed=0 ran=2
2 0 join 00000001 00000002 00000000 -> wait changed=0 ran=3
2 1 thread_exit 00000000 00000001 00000000 -> end changed=1 ran=4
2 2 thread_exit 00000001 00000002 00000000 -> end changed=1 ran=4
3 0 join 00000002 00000000 00000000 -> 0 00000001 changed=0 ran=2
4 0 exit 00000002 00000001 00000000 -> end changed=0 ran=4
";
