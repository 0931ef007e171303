//! The refusals of a file, with their numbers and names.
ghost use Rattle.std.specs.Prelude.{◌≡◌};
ghost use Rattle.elf32_reader.specs.Faults.{number_of, name_of};

use std::error::Error;
use std::fmt;

/// Why a file isn't read. Of the refusals, number 1 to 20, the first that applies is given, in the order of
/// their numbers, but 13 to 18 are tested for one program header after the other.
#[derive(Clone, Copy, PartialEq, Eq)]
pub enum ElfFault {
    /// The file has over 67,108,864 bytes.
    TooLarge,
    /// The file has under 52 bytes, so it has no whole header.
    Truncated,
    /// The file doesn't begin with the bytes 7F 45 4C 46.
    NotElf,
    /// The class isn't ELFCLASS32.
    NotClass32,
    /// The data encoding isn't ELFDATA2LSB.
    NotLittleEndian,
    /// One of the two versions isn't EV_CURRENT.
    BadVersion,
    /// The type isn't ET_EXEC.
    NotExec,
    /// The machine isn't EM_RISCV.
    NotRiscV,
    /// The processor flags aren't 0.
    BadFlags,
    /// The header hasn't 52 bytes, or a program header hasn't 32, also where there is none.
    BadHeaderSize,
    /// There are over 64 program headers.
    TooManySegments,
    /// The table of program headers passes the file's end.
    TableOutside,
    /// A program header is of type PT_DYNAMIC or PT_INTERP.
    Interpreter,
    /// A segment has more bytes in the file than in memory.
    SegmentSizes,
    /// The bytes of a segment pass the file's end.
    SegmentOutsideFile,
    /// A segment isn't in the image window, 0x00010000 up to 0x20000000.
    SegmentOutsideWindow,
    /// A segment is both writable and executable.
    WritableCode,
    /// The first page of a segment isn't above the last page of the segment before it.
    SegmentOrder,
    /// The segments have over 16,384 pages in all.
    TooManyPages,
    /// The entry is no multiple of 4, or its page isn't executable.
    BadEntry,
    /// The file isn't refused, and no memory was found for its image.
    OutOfMemory,
}

impl ElfFault {
    /// Its number, 1 to 21.
    pub fn number(self) -> u8
        ensures { result ≡ number_of self }
    {
        match self {
            ElfFault::TooLarge => 1,
            ElfFault::Truncated => 2,
            ElfFault::NotElf => 3,
            ElfFault::NotClass32 => 4,
            ElfFault::NotLittleEndian => 5,
            ElfFault::BadVersion => 6,
            ElfFault::NotExec => 7,
            ElfFault::NotRiscV => 8,
            ElfFault::BadFlags => 9,
            ElfFault::BadHeaderSize => 10,
            ElfFault::TooManySegments => 11,
            ElfFault::TableOutside => 12,
            ElfFault::Interpreter => 13,
            ElfFault::SegmentSizes => 14,
            ElfFault::SegmentOutsideFile => 15,
            ElfFault::SegmentOutsideWindow => 16,
            ElfFault::WritableCode => 17,
            ElfFault::SegmentOrder => 18,
            ElfFault::TooManyPages => 19,
            ElfFault::BadEntry => 20,
            ElfFault::OutOfMemory => 21,
        }
    }

    /// Its name, as it is written here.
    pub fn name(self) -> &'static str
        ensures { result.now ≡ name_of self }
    {
        match self {
            ElfFault::TooLarge => "TooLarge",
            ElfFault::Truncated => "Truncated",
            ElfFault::NotElf => "NotElf",
            ElfFault::NotClass32 => "NotClass32",
            ElfFault::NotLittleEndian => "NotLittleEndian",
            ElfFault::BadVersion => "BadVersion",
            ElfFault::NotExec => "NotExec",
            ElfFault::NotRiscV => "NotRiscV",
            ElfFault::BadFlags => "BadFlags",
            ElfFault::BadHeaderSize => "BadHeaderSize",
            ElfFault::TooManySegments => "TooManySegments",
            ElfFault::TableOutside => "TableOutside",
            ElfFault::Interpreter => "Interpreter",
            ElfFault::SegmentSizes => "SegmentSizes",
            ElfFault::SegmentOutsideFile => "SegmentOutsideFile",
            ElfFault::SegmentOutsideWindow => "SegmentOutsideWindow",
            ElfFault::WritableCode => "WritableCode",
            ElfFault::SegmentOrder => "SegmentOrder",
            ElfFault::TooManyPages => "TooManyPages",
            ElfFault::BadEntry => "BadEntry",
            ElfFault::OutOfMemory => "OutOfMemory",
        }
    }
}

/// Its name alone. Written by hand, as `Display` is, since the derived impls of this many variants take longer to
/// prove than the rest of the crate.
impl fmt::Debug for ElfFault {
    fn fmt<W: fmt::Write>(&self, f: &mut fmt::Formatter<W>) -> fmt::Result {
        f.write_str(self.name())
    }
}

impl fmt::Display for ElfFault {
    fn fmt<W: fmt::Write>(&self, f: &mut fmt::Formatter<W>) -> fmt::Result {
        write!(f, "{} {}", self.number(), self.name())
    }
}

impl Error for ElfFault {}
