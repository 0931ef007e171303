//! The header of a file of any class (System V ABI, ELF Header), and its line.
ghost use Rattle.std.specs.Prelude.{◌≡◌, ◌++◌, ◌+◌, ◌≤◌, IsTrue, OnOk, length};
ghost use Rattle.std.specs.String.{string_bytes};
ghost use Rattle.file_facts.specs.Format.{shared_size};
ghost use Rattle.file_facts.specs.Header as spec;

use crate::fields::{big_half, half};
use crate::header_names::{class_name, data_name, machine_name, type_name};
use std::alloc::AllocError;

/// How many bytes of a header all classes share, up to the machine.
const SHARED_SIZE: usize = 20;

/// The bytes of a header of 32 bits.
const HEADER_SIZE: usize = 52;

/// The class of files with 32-bit addresses.
const ELFCLASS32: u8 = 1;

/// The class of files with 64-bit addresses.
const ELFCLASS64: u8 = 2;

/// The data encoding with the lowest byte first.
const ELFDATA2LSB: u8 = 1;

/// The data encoding with the highest byte first.
const ELFDATA2MSB: u8 = 2;

/// The machine RISC-V.
pub(crate) const EM_RISCV: u16 = 243;

/// Whether a file is an ELF file, of which all that classes share is there.
pub(crate) fn is_elf(file: &[u8]) -> bool
    ensures { result ≡ spec.is_elf file.now }
{
    file.starts_with(b"\x7fELF") && file.len() >= SHARED_SIZE
}

/// Whether a file is an ELF file of 32 bits, the lowest byte first, with a whole header.
pub(crate) fn is_elf32(file: &[u8]) -> bool
    ensures { result ≡ spec.is_elf32 file.now }
{
    is_elf(file) && file.len() >= HEADER_SIZE && file[4] == ELFCLASS32 && file[5] == ELFDATA2LSB
}

/// A field of 2 bytes, in the file's own order.
#[tactic(auto, unfolding(crate::specs::Header::own_half_at))]
fn own_half(file: &[u8], offset: usize) -> u16
    requires whole { shared_size ≤ length file.now }
    requires inside { offset + 2 ≤ length file.now }
    ensures { result ≡ spec.own_half_at file.now offset }
{
    if file[5] == ELFDATA2MSB {
        big_half(file, offset)
    } else {
        half(file, offset)
    }
}

/// The type of an ELF file.
pub(crate) fn type_of(file: &[u8]) -> u16
    requires { shared_size ≤ length file.now }
    ensures { result ≡ spec.type_of file.now }
{
    own_half(file, 16)
}

/// The machine of an ELF file.
pub(crate) fn machine_of(file: &[u8]) -> u16
    requires { shared_size ≤ length file.now }
    ensures { result ≡ spec.machine_of file.now }
{
    own_half(file, 18)
}

/// Which RISC-V a file of a class, a data encoding and a machine is for.
fn width_of(class: u8, encoding: u8, machine: u16) -> &'static str
    ensures { result.now ≡ spec.width_text class encoding machine }
{
    if machine == EM_RISCV && class == ELFCLASS64 {
        "64-bit "
    } else if machine == EM_RISCV && encoding == ELFDATA2MSB {
        "big-endian "
    } else {
        ""
    }
}

/// Appends the machine of an ELF file, as `RISC-V (machine 243)`.
#[tactic(auto, unfolding(crate::specs::Header::machine_text))]
pub(crate) fn write_machine(text: &mut String, file: &[u8]) -> Result<(), AllocError>
    requires { shared_size ≤ length file.now }
    ensures { OnOk result (string_bytes text.new ≡ string_bytes text.old ++ spec.machine_text file.now) }
{
    let machine = machine_of(file);
    text.push_str(width_of(file[4], file[5], machine))?;
    text.push_str(machine_name(machine))?;
    write!(text, " (machine {machine})")
}

/// Appends the line of an ELF file.
#[tactic(auto, unfolding(crate::specs::Header::header_text))]
pub(crate) fn write_header(text: &mut String, file: &[u8]) -> Result<(), AllocError>
    requires { shared_size ≤ length file.now }
    ensures { OnOk result (string_bytes text.new ≡ string_bytes text.old ++ spec.header_text file.now) }
{
    text.push_str("file: ")?;
    text.push_str(class_name(file[4]))?;
    text.push_str(", ")?;
    text.push_str(data_name(file[5]))?;
    text.push_str(", ")?;
    text.push_str(type_name(type_of(file)))?;
    text.push_str(", for ")?;
    write_machine(text, file)?;
    text.push_str("\n")
}
