//! The head of a core file: all before the bytes of the memory.
ghost use Rattle.std.specs.Prelude.{◌≡◌, ◌+◌, ◌*◌, ◌<◌, ◌≤◌, ◌++◌, ◌^◌, All, IfOk, IfErr, IfNone, IfSome, OnOk, length};
ghost use Rattle.guest_memory.specs.Layout.{page_size};
ghost use Rattle.paged_memory.specs.PageMap.{PageMap};
ghost use Rattle.core_file.specs.Core.{Fits, flags_of, head_of, load_headers};
ghost use Rattle.core_file.specs.Fields.{elf_header, program_header_bytes};
ghost use Rattle.core_file.specs.Runs.{IsPlaced, loads_of, pages_in};

use crate::core_fault::CoreFault;
use crate::core_program_header::CoreProgramHeader;
use crate::numbers::{put_halves, put_words};
use crate::run::Run;
use crate::runs::Runs;
use guest_memory::Perm;
use guest_memory::layout::PAGE_SIZE;
use std::alloc::{AllocError, Global};

/// The bytes of the header.
const HEADER_SIZE: u16 = 52;

/// The bytes of a program header.
const PROGRAM_HEADER_SIZE: u16 = 32;

/// How many segments there are at most, since 65,535 program headers stand for more of them.
const MOST_LOADS: usize = 65_533;

/// Core files.
const ET_CORE: u16 = 4;

/// RISC-V.
const EM_RISCV: u16 = 243;

/// The one version.
const EV_CURRENT: u32 = 1;

/// Segments that are loaded.
const PT_LOAD: u32 = 1;

/// Notes.
const PT_NOTE: u32 = 4;

/// The head of a core file with these notes and these runs.
pub(crate) fn head_of(alloc: Global, notes: &[u8], runs: &Runs) -> Result<Vec<u8>, CoreFault>
    requires placed { All IsPlaced runs.now.list.items }
    requires counted { runs.now.pages ≡ pages_in runs.now.list.items }
    ensures head { IfOk result (λ head. (pages : PageMap) → head.items ≡ head_of notes.now (loads_of pages runs.now.list.items)) }
    ensures fits { IfOk result (λ head. (pages : PageMap) → Fits notes.now (loads_of pages runs.now.list.items)) }
    ensures too_large { IfErr result (λ fault. fault ≡ CoreFault.TooLarge
        → (pages : PageMap) → ¬ Fits notes.now (loads_of pages runs.now.list.items)) }
{
    let Some(start) = notes_start(notes, runs) else {
        return Err(CoreFault::TooLarge);
    };
    let size = notes.len() as u32;
    let mut head = Vec::new(alloc);
    put_elf_header(&mut head, (runs.list.len() + 1) as u16)?;
    put_program_header(
        &mut head,
        &CoreProgramHeader {
            p_type: PT_NOTE,
            p_offset: start,
            p_vaddr: 0,
            p_filesz: size,
            p_memsz: 0,
            p_flags: 0,
            p_align: 4,
        },
    )?;
    put_load_headers(&mut head, start + size, runs.list.as_slice())?;
    head.extend_from_slice(notes)?;
    Ok(head)
}

/// Where the notes begin, and none if the file would be too large.
fn notes_start(notes: &[u8], runs: &Runs) -> Option<u32>
    requires { runs.now.pages ≡ pages_in runs.now.list.items }
    ensures start { IfSome result (λ start. start ≡ 52 + 32 * (length runs.now.list.items + 1)) }
    ensures fits { IfSome result (λ start. (length runs.now.list.items + 1 < 65_535)
        × (start + length notes.now + page_size * runs.now.pages < 2 ^ 32)) }
    ensures none { IfNone result ((length runs.now.list.items + 1 < 65_535)
        → 52 + 32 * (length runs.now.list.items + 1) + length notes.now + page_size * runs.now.pages < 2 ^ 32 → ⊥) }
{
    let loads = runs.list.len();
    if loads > MOST_LOADS {
        return None;
    }
    let start = usize::from(HEADER_SIZE) + usize::from(PROGRAM_HEADER_SIZE) * (loads + 1);
    let memory = u64::from(PAGE_SIZE) * u64::from(runs.pages);
    if start as u64 + notes.len() as u64 + memory <= u64::from(u32::MAX) {
        Some(start as u32)
    } else {
        None
    }
}

/// Appends the header of a core file with so many program headers, which follow it.
#[tactic(auto, unfolding(crate::specs::Fields::elf_header))]
fn put_elf_header(head: &mut Vec<u8>, count: u16) -> Result<(), AllocError>
    ensures { OnOk result (head.new.items ≡ head.old.items ++ elf_header count) }
{
    head.extend_from_slice(b"\x7fELF\x01\x01\x01\0\0\0\0\0\0\0\0\0")?;
    put_halves(head, &[ET_CORE, EM_RISCV])?;
    put_words(head, &[EV_CURRENT, 0, u32::from(HEADER_SIZE), 0, 0])?;
    put_halves(head, &[HEADER_SIZE, PROGRAM_HEADER_SIZE, count, 0, 0, 0])
}

/// Appends a program header.
#[tactic(auto, unfolding(crate::specs::Fields::program_header_bytes))]
fn put_program_header(head: &mut Vec<u8>, header: &CoreProgramHeader) -> Result<(), AllocError>
    ensures { OnOk result (head.new.items ≡ head.old.items ++ program_header_bytes header.now) }
{
    put_words(
        head,
        &[
            header.p_type,
            header.p_offset,
            header.p_vaddr,
            0,
            header.p_filesz,
            header.p_memsz,
            header.p_flags,
            header.p_align,
        ],
    )
}

/// Appends the program headers of runs whose bytes stand one after the other from an offset on.
fn put_load_headers(head: &mut Vec<u8>, start: u32, runs: &[Run]) -> Result<(), AllocError>
    requires placed { All IsPlaced runs.now }
    requires fits { start + page_size * pages_in runs.now < 2 ^ 32 }
    ensures { OnOk result ((pages : PageMap) → head.new.items ≡ head.old.items ++ load_headers start (loads_of pages runs.now)) }
{
    let mut offset = start;
    for run in runs {
        let size = PAGE_SIZE * run.count;
        put_program_header(
            head,
            &CoreProgramHeader {
                p_type: PT_LOAD,
                p_offset: offset,
                p_vaddr: PAGE_SIZE * run.first,
                p_filesz: size,
                p_memsz: size,
                p_flags: flags_of(run.perm),
                p_align: 1,
            },
        )?;
        offset += size;
    }
    Ok(())
}

/// The flags of what a segment permits.
fn flags_of(perm: Perm) -> u32
    ensures { result ≡ flags_of perm }
{
    let read = if perm.read { 4 } else { 0 };
    let write = if perm.write { 2 } else { 0 };
    let execute = if perm.execute { 1 } else { 0 };
    read + write + execute
}
