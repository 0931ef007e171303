//! The ELF header (System V ABI, ELF-32): its fields, and what it must have.
ghost use Rattle.std.specs.Prelude.{◌≡◌, ◌≤◌, ◌+◌, ◌*◌, ◌<◌, length, OnOk, IfOk};
ghost use Rattle.elf32_reader.specs.Format.{header_size, program_header_size, segment_limit};
ghost use Rattle.elf32_reader.specs.Fields.{file_header, program_header, HasTable, HasHeader};
ghost use Rattle.elf32_reader.specs.Refusals.{Tests, size_refusals, ident_refusals, header_refusals, file_refusals};

use crate::fault::ElfFault;
use crate::fields::{half, word};
use crate::program_header::{PROGRAM_HEADER_SIZE, ProgramHeader};

/// The most bytes that a file may have.
pub const FILE_LIMIT: usize = 67_108_864;

/// The bytes of a header.
pub(crate) const HEADER_SIZE: usize = 52;

/// The most program headers that a file may have.
pub(crate) const SEGMENT_LIMIT: u16 = 64;

/// The class of files with 32-bit addresses.
pub(crate) const ELFCLASS32: u8 = 1;

/// The data encoding with the lowest byte first.
pub(crate) const ELFDATA2LSB: u8 = 1;

/// The one version of ELF.
pub(crate) const EV_CURRENT: u8 = 1;

/// The type of executable files.
pub(crate) const ET_EXEC: u16 = 2;

/// The machine RISC-V.
pub(crate) const EM_RISCV: u16 = 243;

/// The header of a file (System V ABI, ELF header), as far as it is looked at.
#[derive(Clone, Copy)]
pub(crate) struct FileHeader {
    pub(crate) e_type: u16,
    pub(crate) e_machine: u16,
    pub(crate) e_version: u32,
    pub(crate) e_entry: u32,
    pub(crate) e_phoff: u32,
    pub(crate) e_flags: u32,
    pub(crate) e_ehsize: u16,
    pub(crate) e_phentsize: u16,
    pub(crate) e_phnum: u16,
}

/// Tests the size of a file.
#[tactic(auto, unfolding(crate::specs::Refusals::first_applying, crate::specs::Refusals::size_refusals))]
fn test_size(file: &[u8]) -> Result<(), ElfFault>
    ensures tests { Tests result (size_refusals file.now) }
    ensures whole { OnOk result (header_size ≤ length file.now) }
{
    if file.len() > FILE_LIMIT {
        Err(ElfFault::TooLarge)
    } else if file.len() < HEADER_SIZE {
        Err(ElfFault::Truncated)
    } else {
        Ok(())
    }
}

/// Tests the bytes that identify a file as ELF, and its version.
#[tactic(auto, unfolding(crate::specs::Refusals::first_applying, crate::specs::Refusals::ident_refusals))]
fn test_ident(file: &[u8], header: &FileHeader) -> Result<(), ElfFault>
    requires whole { header_size ≤ length file.now }
    requires header { header.now ≡ file_header file.now }
    ensures { Tests result (ident_refusals file.now) }
{
    if !file.starts_with(b"\x7fELF") {
        Err(ElfFault::NotElf)
    } else if file[4] != ELFCLASS32 {
        Err(ElfFault::NotClass32)
    } else if file[5] != ELFDATA2LSB {
        Err(ElfFault::NotLittleEndian)
    } else if file[6] != EV_CURRENT || header.e_version != u32::from(EV_CURRENT) {
        Err(ElfFault::BadVersion)
    } else {
        Ok(())
    }
}

/// Tests the fields of a file's header.
#[tactic(auto, unfolding(crate::specs::Refusals::first_applying, crate::specs::Refusals::header_refusals))]
fn test_header(file: &[u8], header: &FileHeader) -> Result<(), ElfFault>
    requires { header.now ≡ file_header file.now }
    ensures tests { Tests result (header_refusals file.now) }
    ensures few { OnOk result (header.now.e_phnum ≤ segment_limit) }
    ensures inside { OnOk result (HasTable file.now) }
{
    if header.e_type != ET_EXEC {
        Err(ElfFault::NotExec)
    } else if header.e_machine != EM_RISCV {
        Err(ElfFault::NotRiscV)
    } else if header.e_flags != 0 {
        Err(ElfFault::BadFlags)
    } else if usize::from(header.e_ehsize) != HEADER_SIZE
        || usize::from(header.e_phentsize) != PROGRAM_HEADER_SIZE
    {
        Err(ElfFault::BadHeaderSize)
    } else if header.e_phnum > SEGMENT_LIMIT {
        Err(ElfFault::TooManySegments)
    } else if header.e_phnum != 0 && header.table_end() > file.len() {
        Err(ElfFault::TableOutside)
    } else {
        Ok(())
    }
}

impl FileHeader {
    /// The offset after the table of program headers.
    fn table_end(&self) -> usize
        ensures { result ≡ self.now.e_phoff + program_header_size * self.now.e_phnum }
    {
        self.e_phoff as usize + PROGRAM_HEADER_SIZE * usize::from(self.e_phnum)
    }

    /// The header of a file that has a whole one.
    pub(crate) fn of(file: &[u8]) -> FileHeader
        requires { header_size ≤ length file.now }
        ensures { result ≡ file_header file.now }
    {
        FileHeader {
            e_type: half(file, 16),
            e_machine: half(file, 18),
            e_version: word(file, 20),
            e_entry: word(file, 24),
            e_phoff: word(file, 28),
            e_flags: word(file, 36),
            e_ehsize: half(file, 40),
            e_phentsize: half(file, 42),
            e_phnum: half(file, 44),
        }
    }

    /// The header of a file, tested.
    #[tactic(auto, using(crate::proofs::Rows::testing), unfolding(crate::specs::Refusals::file_refusals))]
    pub(crate) fn read(file: &[u8]) -> Result<FileHeader, ElfFault>
        ensures tests { Tests result (file_refusals file.now) }
        ensures header { IfOk result (λ header. HasHeader file.now header) }
        ensures few { OnOk result ((file_header file.now).e_phnum ≤ segment_limit) }
    {
        test_size(file)?;
        let header = FileHeader::of(file);
        test_ident(file, &header)?;
        test_header(file, &header)?;
        Ok(header)
    }

    /// The program header with a number, from 0.
    pub(crate) fn program_header(&self, file: &[u8], row: usize) -> ProgramHeader
        requires file { HasHeader file.now self.now }
        requires row { row < self.now.e_phnum }
        ensures { result ≡ program_header file.now row }
    {
        ProgramHeader::at(file, self.e_phoff as usize + PROGRAM_HEADER_SIZE * row)
    }
}
