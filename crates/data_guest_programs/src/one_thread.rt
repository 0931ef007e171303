//! Programs of one thread.

use crate::program::{PAGE, Program};

/// Exits with 7.
pub const SEVEN: Program = Program {
    name: "seven",
    listing: &[
        "\
00010000: 00100893 addi x17,x0,1
00010004: 00700513 addi x10,x0,7
00010008: 00000073 ecall
",
    ],
    zeros: &PAGE,
};

/// Writes the letter `A`.
pub const LETTER: Program = Program {
    name: "letter",
    listing: &[
        "\
00010000: 04100293 addi x5,x0,65
00010004: 00510023 sb x5,0(x2)
00010008: 00010513 addi x10,x2,0
0001000c: 00100593 addi x11,x0,1
00010010: 00b00893 addi x17,x0,11
00010014: 00000073 ecall
00010018: 00100893 addi x17,x0,1
0001001c: 00000073 ecall
",
    ],
    zeros: &PAGE,
};

/// Writes the quotient of 0x80000000 by -1 and the remainder of 0x80000000 by 0.
pub const QUOTIENTS: Program = Program {
    name: "quotients",
    listing: &[
        "\
00010000: 800002b7 lui x5,0x80000
00010004: fff00313 addi x6,x0,-1
00010008: 0262c3b3 div x7,x5,x6
0001000c: 0202ee33 rem x28,x5,x0
00010010: 00712023 sw x7,0(x2)
00010014: 01c12223 sw x28,4(x2)
00010018: 00010513 addi x10,x2,0
0001001c: 00800593 addi x11,x0,8
00010020: 00b00893 addi x17,x0,11
00010024: 00000073 ecall
00010028: 00100893 addi x17,x0,1
0001002c: 00000073 ecall
",
    ],
    zeros: &PAGE,
};

/// Copies up to 4 bytes of input to the output.
pub const ECHO: Program = Program {
    name: "echo",
    listing: &[
        "\
00010000: 00020537 lui x10,0x00020
00010004: 00400593 addi x11,x0,4
00010008: 00c00893 addi x17,x0,12
0001000c: 00000073 ecall
00010010: 00020537 lui x10,0x00020
00010014: 00b00893 addi x17,x0,11
00010018: 00000073 ecall
0001001c: 00000513 addi x10,x0,0
00010020: 00100893 addi x17,x0,1
00010024: 00000073 ecall
",
    ],
    zeros: &PAGE,
};

/// Writes from an address that isn't mapped, over the end of the address space, and exits with the code.
pub const BAD_WRITE: Program = Program {
    name: "bad-write",
    listing: &[
        "\
00010000: 00b00893 addi x17,x0,11
00010004: ff000513 addi x10,x0,-16
00010008: 02000593 addi x11,x0,32
0001000c: 00000073 ecall
00010010: 00100893 addi x17,x0,1
00010014: 00000073 ecall
",
    ],
    zeros: &PAGE,
};

/// Writes the two words at its stack pointer by two calls, 8 bytes and 4 bytes, and exits with 3.
pub const TWO_WRITES: Program = Program {
    name: "two-writes",
    listing: &[
        "\
00010000: 00010513 addi x10,x2,0
00010004: 00800593 addi x11,x0,8
00010008: 00b00893 addi x17,x0,11
0001000c: 00000073 ecall
00010010: 00010513 addi x10,x2,0
00010014: 00400593 addi x11,x0,4
00010018: 00b00893 addi x17,x0,11
0001001c: 00000073 ecall
00010020: 00100893 addi x17,x0,1
00010024: 00300513 addi x10,x0,3
00010028: 00000073 ecall
",
    ],
    zeros: &PAGE,
};
