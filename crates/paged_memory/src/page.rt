//! A page: 4096 bytes and a permission.
ghost use Rattle.std.specs.Prelude.{◌≡◌, ◌+◌, ◌-◌, ◌*◌, ◌<◌, ◌≤◌, ℕ, length, slice_index, if◌then◌else◌};
ghost use Rattle.guest_memory.specs.Layout.{page_size};
ghost use Rattle.elf32_reader.specs.LoadSegment.{LoadSegment, first_page, last_page, cell_at};
ghost use Rattle.paged_memory.specs.Mapping.{is_among};
ghost use Rattle.paged_memory.specs.Page.{PageValue};
ghost use Rattle.paged_memory.specs.Bytes.{number_from, with_low_bytes};
ghost use Rattle.paged_memory.specs.PageMap.{with_number_in, with_part_in};
ghost use Rattle.paged_memory.specs.Number.{width_of, value_of};

use crate::little_endian::{read16, read32, write8, write16, write32};
use crate::number::Number;
use elf32_reader::ImageSegment;
use guest_memory::Perm;
use guest_memory::layout::PAGE_SIZE;
use std::marker::Model;

/// A page of a guest's memory: what it permits, and its 4096 bytes.
#[derive(Clone, Copy)]
pub struct Page {
    bytes: [u8; PAGE_SIZE as usize],
    perm: Perm,
}

impl Model for Page {
    ghost Value = { PageValue };

    ghost view = { λ p. record { perm = p.perm; bytes = p.bytes } };

    ghost inverse = { λ page. record { bytes = page.bytes; perm = page.perm } };
}

impl Page {
    /// A page of these bytes.
    pub fn new(perm: Perm, bytes: [u8; PAGE_SIZE as usize]) -> Self
        ensures { result ≡ record { perm = perm; bytes = bytes } }
    {
        Page { perm, bytes }
    }

    /// A page of zeros.
    pub fn zeros(perm: Perm) -> Self
        ensures perm { result.perm ≡ perm }
        ensures bytes { (index : ℕ) → slice_index result.bytes index ≡ 0 }
    {
        Page {
            perm,
            bytes: [0; PAGE_SIZE as usize],
        }
    }

    /// What it permits.
    #[inline(always)]
    pub fn perm(&self) -> Perm
        ensures perm { result ≡ self.now.perm }
        ensures size { length self.now.bytes ≡ page_size }
    {
        self.perm
    }

    /// Its bytes.
    #[inline(always)]
    pub fn bytes(&self) -> &[u8; 4096]
        ensures bytes { result.now ≡ self.now.bytes }
        ensures size { length self.now.bytes ≡ page_size }
    {
        &self.bytes
    }

    /// The byte at an offset.
    #[inline(always)]
    pub fn read8(&self, offset: usize) -> u8
        requires { offset < page_size }
        ensures { result ≡ slice_index self.now.bytes offset }
    {
        self.bytes[offset]
    }

    /// The number of two bytes from an offset on, the lowest first.
    #[inline(always)]
    pub fn read16(&self, offset: usize) -> u16
        requires { offset + 2 ≤ page_size }
        ensures { result ≡ number_from self.now.bytes 2 offset }
    {
        read16(&self.bytes, offset)
    }

    /// The number of four bytes from an offset on, the lowest first.
    #[inline(always)]
    pub fn read32(&self, offset: usize) -> u32
        requires { offset + 4 ≤ page_size }
        ensures { result ≡ number_from self.now.bytes 4 offset }
    {
        read32(&self.bytes, offset)
    }

    /// Writes a number at an offset.
    #[inline(always)]
    pub fn write(&mut self, offset: usize, number: Number)
        requires { offset + width_of number ≤ page_size }
        ensures { self.new ≡ with_number_in (width_of number) offset (value_of number) self.old }
    {
        match number {
            Number::Byte(value) => write8(&mut self.bytes, offset, value),
            Number::Half(value) => write16(&mut self.bytes, offset, value),
            Number::Word(value) => write32(&mut self.bytes, offset, value),
        }
    }

    /// Writes bytes from an offset on.
    pub(crate) fn write_part(&mut self, offset: usize, part: &[u8])
        requires { offset + length part.now ≤ page_size }
        ensures { self.new ≡ with_part_in offset part.now self.old }
    {
        self.bytes[offset..offset + part.len()].copy_from_slice(part);
    }

    /// Writes bytes from an offset on, as many as the page has place for.
    fn fill(&mut self, offset: usize, bytes: &[u8])
        requires { offset < page_size }
        ensures perm { self.new.perm ≡ self.old.perm }
        ensures bytes { (index : ℕ) → index < page_size → slice_index self.new.bytes index ≡
            (if is_among offset (length bytes.now) index then slice_index bytes.now (index - offset)
            else slice_index self.old.bytes index) }
    {
        let count = bytes.len().min(PAGE_SIZE as usize - offset);
        self.bytes[offset..offset + count].copy_from_slice(&bytes[..count]);
    }

    /// The page of a number as a segment has it: its bytes, with zeros around them.
    pub(crate) fn of_segment(segment: &ImageSegment, number: u32) -> Self
        requires { (first_page segment.now ≤ number) × (number ≤ last_page segment.now) }
        ensures perm { result.perm ≡ segment.now.perm }
        ensures bytes { (offset : ℕ) → offset < page_size →
            slice_index result.bytes offset ≡ (cell_at (page_size * number + offset) segment.now).byte }
    {
        let start = segment.vaddr();
        let page_start = number * PAGE_SIZE;
        let mut page = Page::zeros(segment.flags());
        let bytes = segment.bytes();
        let done = page_start.saturating_sub(start) as usize;
        if done < bytes.len() {
            page.fill(start.saturating_sub(page_start) as usize, &bytes[done..]);
        }
        page
    }
}
