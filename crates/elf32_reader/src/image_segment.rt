//! A loadable segment of an image: address, permissions, bytes and size in memory.
ghost use Rattle.std.specs.Prelude.{◌≡◌, ◌<◌, length};
ghost use Rattle.elf32_reader.specs.LoadSegment.{LoadSegment, IsLoadable};

use guest_memory::Perm;
use std::marker::Model;

/// A part of an image: what a program header of type PT_LOAD says of it. It has at least one byte in
/// memory, lies in the image window, and isn't both writable and executable.
#[derive(Debug, Drop)]
pub struct ImageSegment {
    vaddr: u32,
    flags: Perm,
    bytes: Vec<u8>,
    memsz: u32,
}

impl Model for ImageSegment {
    ghost Value = { LoadSegment };

    ghost view = { λ s. record { vaddr = s.vaddr; memsz = s.memsz; perm = s.flags; bytes = s.bytes.items } };

    ghost invariant = { λ s. IsLoadable (record { vaddr = s.vaddr; memsz = s.memsz; perm = s.flags; bytes = s.bytes.items }) };
}

impl ImageSegment {
    /// A segment of these fields.
    pub fn new(vaddr: u32, flags: Perm, bytes: Vec<u8>, memsz: u32) -> Self
        requires { IsLoadable (record { vaddr = vaddr; memsz = memsz; perm = flags; bytes = bytes.items }) }
        ensures { result ≡ record { vaddr = vaddr; memsz = memsz; perm = flags; bytes = bytes.items } }
    {
        ImageSegment {
            vaddr,
            flags,
            bytes,
            memsz,
        }
    }

    /// The address of its first byte.
    pub fn vaddr(&self) -> u32
        ensures vaddr { result ≡ self.now.vaddr }
        ensures loadable { IsLoadable self.now }
    {
        self.vaddr
    }

    /// What its pages permit.
    pub fn flags(&self) -> Perm
        ensures { result ≡ self.now.perm }
    {
        self.flags
    }

    /// The bytes that the file has of it. All others are zeros.
    pub fn bytes(&self) -> &[u8]
        ensures { result.now ≡ self.now.bytes }
    {
        &self.bytes
    }

    /// How many bytes it has in memory.
    pub fn memsz(&self) -> u32
        ensures memsz { result ≡ self.now.memsz }
        ensures loadable { IsLoadable self.now }
    {
        self.memsz
    }
}
