//! A hart: 32 registers and pc. x0 stays 0, and pc a multiple of 4.
ghost use Rattle.std.specs.Prelude.{◌≡◌, ◌<◌, ◌%◌};
ghost use Rattle.hart.specs.HartState.{HartState, register, with_register, started_registers, IsHart};

use decoder::Register;
use std::marker::Model;

/// The registers and pc of a hart. x0 is always 0, and pc is always a multiple of 4.
#[derive(Clone, Copy, Debug, PartialEq, Eq)]
pub struct Hart {
    registers: [u32; 32],
    pc: u32,
}

impl Model for Hart {
    ghost Value = { HartState };

    ghost view = { λ h. record { registers = h.registers; pc = h.pc } };

    ghost invariant = { λ h. IsHart (record { registers = h.registers; pc = h.pc }) };

    ghost inverse = { λ s. record { registers = s.registers; pc = s.pc } };
}

impl Hart {
    /// The hart of a thread that begins at `entry` with its stack pointer, x2, its argument, x10, and its
    /// number, x11. All other registers are 0.
    pub fn new(entry: u32, sp: u32, arg: u32, number: u32) -> Self
        requires { entry % 4 ≡ 0 }
        ensures { result ≡ record { registers = started_registers sp arg number; pc = entry } }
    {
        let mut registers = [0; 32];
        registers[2] = sp;
        registers[10] = arg;
        registers[11] = number;
        Hart {
            registers,
            pc: entry,
        }
    }

    /// What register x`i` holds. x0 holds 0.
    #[inline(always)]
    pub fn reg(&self, i: usize) -> u32
        requires { i < 32 }
        ensures value { result ≡ register self.now i }
        ensures zero { i ≡ 0 → result ≡ 0 }
    {
        self.registers[i]
    }

    /// The address of the next instruction, a multiple of 4.
    #[inline(always)]
    pub fn pc(&self) -> u32
        ensures pc { result ≡ self.now.pc }
        ensures aligned { result % 4 ≡ 0 }
    {
        self.pc
    }

    /// Sets register x`i`. x0 stays 0.
    #[inline(always)]
    pub fn set_reg(&mut self, i: usize, value: u32)
        requires { i < 32 }
        ensures { self.new ≡ record { registers = with_register self.old.registers i value; pc = self.old.pc } }
    {
        if i != 0 {
            self.registers[i] = value;
        }
    }

    /// Sets the address of the next instruction.
    #[inline(always)]
    pub fn set_pc(&mut self, pc: u32)
        requires { pc % 4 ≡ 0 }
        ensures { self.new ≡ record { registers = self.old.registers; pc = pc } }
    {
        self.pc = pc;
    }

    /// What a register holds that an instruction names.
    #[inline(always)]
    pub(crate) fn read(&self, source: Register) -> u32
        ensures { result ≡ register self.now source }
    {
        self.reg(usize::from(source.number()))
    }
}
