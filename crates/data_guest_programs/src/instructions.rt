//! Instructions of which tests make programs of their own.

/// `ecall`.
pub const ECALL: u32 = 0x0000_0073;

/// `addi x17,x0,1` and `ecall`: the call exit, whose status is in x10.
pub const EXIT: [u32; 2] = [0x0010_0893, ECALL];

/// LUI and ADDI that put a word into a register, whose number is taken modulo 32.
pub fn load(register: u32, word: u32) -> [u32; 2] {
    let rd = register % 32 * 128;
    let rs1 = register % 32 * 0x8000;
    let upper = word.wrapping_add(0x800) / 4096 * 4096;
    let lower = word % 4096 * 0x10_0000;
    [upper | rd | 0x37, lower | rs1 | rd | 0x13]
}

/// LUI and ADDI that put two words into x5 and x6: the first four words of a program.
pub fn operands(a: u32, b: u32) -> [u32; 4] {
    let [first, second] = load(5, a);
    let [third, fourth] = load(6, b);
    [first, second, third, fourth]
}
