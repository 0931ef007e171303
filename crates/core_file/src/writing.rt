//! Writes the core file of threads and a memory.
ghost use Rattle.std.specs.Prelude.{◌≡◌, ℕ, All, List, IfErr, OnOk};
ghost use Rattle.std.specs.Io.KnownBytes.{Appends};
ghost use Rattle.paged_memory.specs.Snapshot.{cells_of, pages_of};
ghost use Rattle.core_file.specs.Core.{IsCoreOf, IsTooLarge, bytes_of};
ghost use Rattle.core_file.specs.Runs.{IsPlaced, bytes_from, loads_of};
ghost use Rattle.core_file.specs.Written.{Writes};

use crate::core_fault::CoreFault;
use crate::core_thread::CoreThread;
use crate::heads::head_of;
use crate::notes::notes_of;
use crate::run::Run;
use crate::runs::Runs;
use paged_memory::Snapshot;
use std::alloc::Global;
use std::io::Write;

/// Writes the core file of some threads, the first of them being the one that debuggers show first, and of a memory,
/// page by page.
///
/// # Errors
///
/// After an error the writer may have been given a part of the file, or nothing.
pub fn write_core<W: Write>(
    alloc: Global,
    threads: &[CoreThread],
    memory: &Snapshot,
    writer: &mut W,
) -> Result<(), CoreFault>
    ensures written { OnOk result ((file : List ℕ) × IsCoreOf threads.now (cells_of memory.now) file
        × Appends (W.contents writer.old) (W.contents writer.new) file) }
    ensures too_large { IfErr result (λ fault. fault ≡ CoreFault.TooLarge → IsTooLarge threads.now (cells_of memory.now)) }
{
    let runs = Runs::of(alloc, memory)?;
    let notes = notes_of(alloc, threads)?;
    let head = head_of(alloc, notes.as_slice(), &runs)?;
    write_bytes(head.as_slice(), writer)?;
    write_runs(memory, runs.list.as_slice(), writer)
}

/// Writes the bytes of runs' pages.
fn write_runs<W: Write>(memory: &Snapshot, runs: &[Run], writer: &mut W) -> Result<(), CoreFault>
    requires { All IsPlaced runs.now }
    ensures { Writes result (W.contents writer.old) (bytes_of (loads_of (pages_of memory.now) runs.now)) (W.contents writer.new) }
{
    for run in runs {
        write_run(memory, run, writer)?;
    }
    Ok(())
}

/// Writes the bytes of a run's pages.
fn write_run<W: Write>(memory: &Snapshot, run: &Run, writer: &mut W) -> Result<(), CoreFault>
    requires { IsPlaced run.now }
    ensures { Writes result (W.contents writer.old) (bytes_from (pages_of memory.now) run.now.first run.now.count) (W.contents writer.new) }
{
    for place in 0..run.count {
        match memory.page(run.first + place) {
            Some(page) => write_bytes(page.bytes(), writer)?,
            None => {}
        }
    }
    Ok(())
}

/// Writes bytes.
fn write_bytes<W: Write>(bytes: &[u8], writer: &mut W) -> Result<(), CoreFault>
    ensures { Writes result (W.contents writer.old) bytes.now (W.contents writer.new) }
{
    match writer.write_all(bytes) {
        Ok(()) => Ok(()),
        Err(_) => Err(CoreFault::WriteFailed),
    }
}
