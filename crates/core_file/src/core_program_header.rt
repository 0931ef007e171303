//! A program header of a core file.
/// A program header, its fields under the standard's names; p_paddr is 0 (System V ABI, Program Header).
#[derive(Clone, Copy)]
pub(crate) struct CoreProgramHeader {
    pub p_type: u32,
    pub p_offset: u32,
    pub p_vaddr: u32,
    pub p_filesz: u32,
    pub p_memsz: u32,
    pub p_flags: u32,
    pub p_align: u32,
}
