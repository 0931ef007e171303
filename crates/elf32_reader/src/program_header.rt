//! The program headers (System V ABI, ELF-32): their fields, and what each must have.
ghost use Rattle.std.specs.Prelude.{◌≡◌, ◌+◌, ◌-◌, ◌<◌, ◌≤◌, length, IsTrue, IfOk};
ghost use Rattle.elf32_reader.specs.Format.{program_header_size};
ghost use Rattle.guest_memory.specs.Layout.{page_of, image_end};
ghost use Rattle.elf32_reader.specs.Fields.{program_header_at};
ghost use Rattle.elf32_reader.specs.LoadSegment.{IsLoadable};
ghost use Rattle.elf32_reader.specs.Segments.{has_flag, is_segment, segment_of, perm_of};
ghost use Rattle.elf32_reader.specs.Refusals.{Tests, program_refusals, segment_refusals};

use crate::fault::ElfFault;
use crate::fields::word;
use crate::image_segment::ImageSegment;
use guest_memory::Perm;
use guest_memory::layout::{IMAGE_END, IMAGE_START, PAGE_SIZE};
use std::alloc::{AllocError, Global};

/// The bytes of a program header.
pub(crate) const PROGRAM_HEADER_SIZE: usize = 32;

/// The type of a program header that describes a segment to be loaded.
pub(crate) const PT_LOAD: u32 = 1;

/// The type of one that describes dynamic linking.
pub(crate) const PT_DYNAMIC: u32 = 2;

/// The type of one that names an interpreter.
pub(crate) const PT_INTERP: u32 = 3;

/// The flag of executable segments.
pub(crate) const PF_X: u32 = 1;

/// The flag of writable segments.
pub(crate) const PF_W: u32 = 2;

/// The flag of readable segments.
pub(crate) const PF_R: u32 = 4;

/// A program header (System V ABI, program header), as far as it is looked at.
#[derive(Clone, Copy)]
pub(crate) struct ProgramHeader {
    pub(crate) p_type: u32,
    pub(crate) p_offset: u32,
    pub(crate) p_vaddr: u32,
    pub(crate) p_filesz: u32,
    pub(crate) p_memsz: u32,
    pub(crate) p_flags: u32,
}

impl ProgramHeader {
    /// The program header at an offset.
    #[tactic(auto, unfolding(crate::specs::Fields::program_header_at))]
    pub(crate) fn at(file: &[u8], offset: usize) -> ProgramHeader
        requires { offset + program_header_size ≤ length file.now }
        ensures { result ≡ program_header_at file.now offset }
    {
        ProgramHeader {
            p_type: word(file, offset),
            p_offset: word(file, offset + 4),
            p_vaddr: word(file, offset + 8),
            p_filesz: word(file, offset + 16),
            p_memsz: word(file, offset + 20),
            p_flags: word(file, offset + 24),
        }
    }

    /// Whether it describes a segment. Others, and those with no byte in memory, are ignored.
    pub(crate) fn is_segment(&self) -> bool
        ensures { result ≡ is_segment self.now }
    {
        self.p_type == PT_LOAD && self.p_memsz != 0
    }

    /// What its segment's pages permit.
    pub(crate) fn perm(&self) -> Perm
        ensures { result ≡ perm_of self.now.p_flags }
    {
        Perm {
            read: self.has_flag(PF_R),
            write: self.has_flag(PF_W),
            execute: self.has_flag(PF_X),
        }
    }

    /// Whether it has a flag.
    fn has_flag(&self, flag: u32) -> bool
        requires { 0 < flag }
        ensures { result ≡ has_flag self.now.p_flags flag }
    {
        self.p_flags / flag % 2 == 1
    }

    /// The first page of its segment.
    pub(crate) fn first_page(&self) -> u32
        ensures { result ≡ page_of self.now.p_vaddr }
    {
        self.p_vaddr / PAGE_SIZE
    }

    /// The last page of its segment.
    pub(crate) fn last_page(&self) -> u32
        requires not_empty { 0 < self.now.p_memsz }
        requires below { self.now.p_vaddr + self.now.p_memsz ≤ image_end }
        ensures { result ≡ page_of (self.now.p_vaddr + self.now.p_memsz - 1) }
    {
        (self.p_vaddr + self.p_memsz - 1) / PAGE_SIZE
    }

    /// Tests it, given the last page of the segment before it, if there is one.
    #[tactic(auto, unfolding(crate::specs::Refusals::first_applying))]
    pub(crate) fn test(&self, file: &[u8], before: Option<u32>) -> Result<(), ElfFault>
        ensures { Tests result (program_refusals file.now before self.now) }
    {
        if self.p_type == PT_DYNAMIC || self.p_type == PT_INTERP {
            Err(ElfFault::Interpreter)
        } else if self.p_type == PT_LOAD && self.p_filesz > self.p_memsz {
            Err(ElfFault::SegmentSizes)
        } else if self.is_segment() {
            self.test_segment(file, before)
        } else {
            Ok(())
        }
    }

    /// Tests the segment that it describes.
    #[tactic(auto, unfolding(crate::specs::Refusals::first_applying))]
    fn test_segment(&self, file: &[u8], before: Option<u32>) -> Result<(), ElfFault>
        requires { IsTrue (is_segment self.now) }
        ensures { Tests result (segment_refusals file.now before self.now) }
    {
        let perm = self.perm();
        if self.p_offset as usize + self.p_filesz as usize > file.len() {
            Err(ElfFault::SegmentOutsideFile)
        } else if self.p_vaddr < IMAGE_START
            || u64::from(self.p_vaddr) + u64::from(self.p_memsz) > u64::from(IMAGE_END)
        {
            Err(ElfFault::SegmentOutsideWindow)
        } else if perm.write && perm.execute {
            Err(ElfFault::WritableCode)
        } else if before.is_some_and(|page| self.first_page() <= page) {
            Err(ElfFault::SegmentOrder)
        } else {
            Ok(())
        }
    }

    /// Its segment, with a copy of its bytes in the file.
    pub(crate) fn load(&self, alloc: Global, file: &[u8]) -> Result<ImageSegment, AllocError>
        requires inside { self.now.p_offset + self.now.p_filesz ≤ length file.now }
        requires loadable { IsLoadable (segment_of file.now self.now) }
        ensures { IfOk result (λ segment. segment ≡ segment_of file.now self.now) }
    {
        let start = self.p_offset as usize;
        let bytes = Vec::from_slice(alloc, &file[start..start + self.p_filesz as usize])?;
        Ok(ImageSegment::new(self.p_vaddr, self.perm(), bytes, self.p_memsz))
    }
}
