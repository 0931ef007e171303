//! Why a file is refused as a program, in words.
ghost use Rattle.std.specs.Prelude.{◌≡◌, ◌++◌, OnOk};
ghost use Rattle.std.specs.String.{string_bytes};
ghost use Rattle.file_facts.specs.Reasons as spec;

use crate::fields::word;
use crate::header::{EM_RISCV, is_elf, is_elf32, machine_of, write_machine};
use elf32_reader::ElfFault;
use std::alloc::AllocError;

/// What to do about a file for another machine.
const COMPILE: &str = ": compile for RV32IM: guest/dthreads-cc, or -march=rv32im -mabi=ilp32";

/// What to do about a file that is linked another way.
const LINK: &str = ": link it with guest/dthreads-cc";

/// Appends why a file is refused so and what to do, as a sentence: `the file is for x86-64 (machine 62): compile for RV32IM:
/// guest/dthreads-cc, or -march=rv32im -mabi=ilp32`.
///
/// # Errors
///
/// Only out of memory. The text may then have some of the sentence.
#[tactic(auto, unfolding(crate::specs::Reasons::reason_text))]
pub fn write_reason(text: &mut String, file: &[u8], fault: ElfFault) -> Result<(), AllocError>
    ensures { OnOk result (string_bytes text.new ≡ string_bytes text.old ++ spec.reason_text file.now fault) }
{
    text.push_str("the file ")?;
    write_cause(text, file, fault)?;
    text.push_str(hint_of(names_machine(file, fault), fault))
}

/// Appends the reason itself.
#[tactic(auto, unfolding(crate::specs::Reasons::cause_text, crate::specs::Reasons::names_machine))]
fn write_cause(text: &mut String, file: &[u8], fault: ElfFault) -> Result<(), AllocError>
    ensures { OnOk result (string_bytes text.new ≡ string_bytes text.old ++ spec.cause_text file.now fault) }
{
    if names_machine(file, fault) {
        text.push_str("is for ")?;
        return write_machine(text, file);
    }
    text.push_str(reason_of(file, fault))
}

/// Whether the reason is the machine, which the file names.
#[tactic(auto, unfolding(crate::specs::Reasons::names_machine))]
fn names_machine(file: &[u8], fault: ElfFault) -> bool
    ensures { result ≡ spec.names_machine file.now fault }
{
    is_elf(file) && is_of_machine(machine_of(file) == EM_RISCV, fault)
}

/// Whether a fault is one of a file for another machine.
fn is_of_machine(is_riscv: bool, fault: ElfFault) -> bool
    ensures { result ≡ spec.is_of_machine is_riscv fault }
{
    match fault {
        ElfFault::NotClass32 | ElfFault::NotLittleEndian | ElfFault::NotRiscV => true,
        ElfFault::NotExec => !is_riscv,
        _ => false,
    }
}

/// Why a file with these flags is refused.
fn flags_reason(flags: u32) -> &'static str
    ensures { result.now ≡ spec.flags_reason flags }
{
    if flags % 2 == 1 {
        "has compressed instructions"
    } else if flags / 2 % 4 != 0 {
        "passes floats in registers"
    } else if flags / 8 % 2 == 1 {
        "has half of the registers (RV32E)"
    } else {
        "has flags of another machine"
    }
}

/// The flags of a file that has them, else 0.
fn flags_of(file: &[u8]) -> u32
    ensures { result ≡ spec.flags_of file.now }
{
    if is_elf32(file) { word(file, 36) } else { 0 }
}

/// Any other reason.
fn reason_of(file: &[u8], fault: ElfFault) -> &'static str
    ensures { result.now ≡ spec.reason_of file.now fault }
{
    match fault {
        ElfFault::TooLarge => "has over 67108864 bytes",
        ElfFault::Truncated => truncated_reason(file),
        ElfFault::NotElf => "is no ELF file",
        ElfFault::NotClass32 => "is for another machine",
        ElfFault::NotLittleEndian => "is for another machine",
        ElfFault::BadVersion => "is of an unknown version of ELF",
        ElfFault::NotExec => "is no executable file",
        ElfFault::NotRiscV => "is for another machine",
        ElfFault::BadFlags => flags_reason(flags_of(file)),
        ElfFault::BadHeaderSize => "has headers of another size",
        ElfFault::TooManySegments => "has over 64 program headers",
        ElfFault::TableOutside => "is cut off",
        ElfFault::Interpreter => "is linked dynamically",
        ElfFault::SegmentSizes => "has a segment with more bytes than memory",
        ElfFault::SegmentOutsideFile => "is cut off",
        ElfFault::SegmentOutsideWindow => "has a segment outside of 00010000 to 20000000",
        ElfFault::WritableCode => "has a segment that is both writable and executable",
        ElfFault::SegmentOrder => {
            "has two segments on one page, or a segment below the one before it"
        }
        ElfFault::TooManyPages => "has over 16384 pages",
        ElfFault::BadEntry => {
            "begins outside of its code, or at an address that is no multiple of 4"
        }
        ElfFault::OutOfMemory => "takes more memory than there is",
    }
}

/// Why a file without a whole header is refused.
fn truncated_reason(file: &[u8]) -> &'static str
    ensures { result.now ≡ spec.truncated_reason file.now }
{
    if file.starts_with(b"\x7fELF") {
        "is cut off"
    } else {
        "is no ELF file"
    }
}

/// What to do, by whether the reason is the machine.
fn hint_of(names_machine: bool, fault: ElfFault) -> &'static str
    ensures { result.now ≡ spec.hint_of names_machine fault }
{
    if names_machine {
        return COMPILE;
    }
    match fault {
        ElfFault::BadFlags => COMPILE,
        ElfFault::NotExec
        | ElfFault::Interpreter
        | ElfFault::SegmentOutsideWindow
        | ElfFault::WritableCode
        | ElfFault::SegmentOrder
        | ElfFault::BadEntry => LINK,
        _ => "",
    }
}
