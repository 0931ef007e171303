//! Programs of several threads that share no byte, or only one that is released.

use crate::program::{PAGE, Program};

/// Thread 1 loops without end, and thread 0 exits.
pub const ENDLESS: Program = Program {
    name: "endless",
    listing: &[
        "\
00010000: 00010437 lui x8,0x00010
00010004: 00300893 addi x17,x0,3
00010008: 01c40513 addi x10,x8,28
0001000c: 00000073 ecall
00010010: 00100893 addi x17,x0,1
00010014: 00900513 addi x10,x0,9
00010018: 00000073 ecall
0001001c: 0000006f jal x0,0x0001001c
",
    ],
    zeros: &PAGE,
};

/// Thread 1 takes a mutex and exits while it keeps the token, in the phase in which thread 2 loops without end.
pub const KEEPER_EXIT: Program = Program {
    name: "keeper-exit",
    listing: &[
        "\
00010000: 00010437 lui x8,0x00010
00010004: 00500893 addi x17,x0,5
00010008: 00000073 ecall
0001000c: 00300893 addi x17,x0,3
00010010: 03840513 addi x10,x8,56
00010014: 00000073 ecall
00010018: 05040513 addi x10,x8,80
0001001c: 00000073 ecall
00010020: 00600893 addi x17,x0,6
00010024: 00000513 addi x10,x0,0
00010028: 00000073 ecall
0001002c: 00e00893 addi x17,x0,14
00010030: 00000073 ecall
00010034: 0000006f jal x0,0x00010034
00010038: 00500893 addi x17,x0,5
0001003c: 00000513 addi x10,x0,0
00010040: 00000073 ecall
00010044: 00100893 addi x17,x0,1
00010048: 00900513 addi x10,x0,9
0001004c: 00000073 ecall
00010050: 0000006f jal x0,0x00010050
",
    ],
    zeros: &PAGE,
};

/// Thread 1 stores to a page that thread 0 releases in the same phase.
pub const RELEASE_RACE: Program = Program {
    name: "release-race",
    listing: &[
        "\
00010000: 00100513 addi x10,x0,1
00010004: 00d00893 addi x17,x0,13
00010008: 00000073 ecall
0001000c: 00058413 addi x8,x11,0
00010010: 000104b7 lui x9,0x00010
00010014: 03c48513 addi x10,x9,60
00010018: 00040593 addi x11,x8,0
0001001c: 00300893 addi x17,x0,3
00010020: 00000073 ecall
00010024: 00040513 addi x10,x8,0
00010028: 00100593 addi x11,x0,1
0001002c: 00f00893 addi x17,x0,15
00010030: 00000073 ecall
00010034: 00100893 addi x17,x0,1
00010038: 00000073 ecall
0001003c: 00b50023 sb x11,0(x10)
00010040: 00200893 addi x17,x0,2
00010044: 00000073 ecall
",
    ],
    zeros: &PAGE,
};

/// Thread 0 signals thread 1.
pub const SIGNAL: Program = Program {
    name: "signal",
    listing: &[
        "\
00010000: 00010437 lui x8,0x00010
00010004: 00300893 addi x17,x0,3
00010008: 03440513 addi x10,x8,52
0001000c: 00000073 ecall
00010010: 00e00893 addi x17,x0,14
00010014: 00000073 ecall
00010018: 00800893 addi x17,x0,8
0001001c: 00000073 ecall
00010020: 00400893 addi x17,x0,4
00010024: 00100513 addi x10,x0,1
00010028: 00000073 ecall
0001002c: 00100893 addi x17,x0,1
00010030: 00000073 ecall
00010034: 00500893 addi x17,x0,5
00010038: 00000073 ecall
0001003c: 00700893 addi x17,x0,7
00010040: 00000593 addi x11,x0,0
00010044: 00000073 ecall
00010048: 00600893 addi x17,x0,6
0001004c: 00000073 ecall
00010050: 00200893 addi x17,x0,2
00010054: 00000073 ecall
",
    ],
    zeros: &PAGE,
};

/// The trace of `keeper-exit`.
pub const KEEPER_EXIT_TRACE: &str = "\
1 0 lock 00000000 00000000 00000000 -> 0 changed=0 ran=3
1 0 create 00010038 00000000 00000000 -> 0 00000001 changed=0 ran=3
1 0 create 00010050 00000001 00000000 -> 0 00000002 changed=0 ran=2
1 0 unlock 00000000 00000002 00000000 -> 0 changed=0 ran=3
2 0 sync 00000000 00000002 00000000 -> 0 changed=0 ran=2
2 1 lock 00000000 00000001 00000000 -> 0 changed=0 ran=3
2 1 exit 00000009 00000001 00000000 -> end changed=0 ran=3
";
