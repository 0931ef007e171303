//! How a run ended in words, if that is wanted: the text is made of what the run left and of the symbols of its file.
ghost use Rattle.std.specs.Prelude.{◌≡◌, ◌≤◌, IfOk, false, is_some, length};
ghost use Rattle.std.specs.String.{string_bytes};
ghost use Rattle.abi.specs.Limits as limit;
ghost use Rattle.command_run.specs.Explaining as spec;

use explanations::{Trapped, trap_text, waits_text};
use hart::Trap;
use paged_memory::Snapshot;
use runtime::{Config, RunEnd, RunOutcome};
use std::alloc::{AllocError, Global};
use symbols::Symbols;
use thread_table::Thread;

/// What the end of a run is explained by, beside what the run left.
#[derive(Drop)]
pub(crate) struct Explaining {
    /// The symbols of its file.
    pub(crate) symbols: Symbols,
    /// How many instructions a thread may execute.
    pub(crate) bound: u64,
}

/// What the end of a run of a file is explained by, if that is wanted.
pub(crate) fn wanted_explaining(
    alloc: Global,
    elf: &[u8],
    config: &Config,
    explains: bool,
) -> Result<Option<Explaining>, AllocError>
    ensures { IfOk result (λ explaining. is_some explaining ≡ explains) }
{
    if !explains {
        return Ok(None);
    }
    Ok(Some(Explaining {
        symbols: Symbols::read(alloc, elf)?,
        bound: config.bound,
    }))
}

/// Appends how a run ended in words to a note, if that is wanted. If memory runs out for it, the note may lack it.
pub(crate) fn explain(
    alloc: Global,
    end: &RunEnd,
    explaining: &Option<Explaining>,
    note: &mut String,
)
    requires { length end.now.threads.items ≤ limit.threads }
    ensures { is_some explaining.now ≡ false → note.new ≡ note.old }
{
    let Some(explaining) = explaining else {
        return;
    };
    let text = explanation(alloc, end, explaining);
    if let Ok(text) = text {
        let _ = note.push_str(text.as_str());
    }
}

/// How a run ended in words: nothing, if it ended well.
fn explanation(alloc: Global, end: &RunEnd, explaining: &Explaining) -> Result<String, AllocError>
    requires { length end.now.threads.items ≤ limit.threads }
    ensures { IfOk result (λ text. string_bytes text ≡ spec.explanation_of explaining.now.symbols explaining.now.bound end.now) }
{
    match end.outcome {
        RunOutcome::Trap { thread, pc, trap } => {
            let trapped = trapped_in(end, explaining.bound, thread, pc, trap);
            trap_text(alloc, &trapped, &explaining.symbols)
        }
        RunOutcome::Deadlock => { waits_text(alloc, end.threads.as_slice(), &explaining.symbols) }
        RunOutcome::Exit(_) | RunOutcome::Finished(_) => Ok(String::new(alloc)),
    }
}

/// The thread that trapped, as far as a line tells of it.
fn trapped_in(end: &RunEnd, bound: u64, thread: u32, pc: u32, trap: Trap) -> Trapped
    ensures { result ≡ spec.trapped_in end.now bound thread pc trap }
{
    Trapped {
        thread,
        pc,
        trap,
        stack_pointer: stack_pointer_of(end.threads.as_slice(), thread),
        is_writable_above: is_writable(&end.memory, trap.value.wrapping_add(4096)),
        bound,
    }
}

/// The stack pointer of a thread, 0 if there is no such thread.
fn stack_pointer_of(threads: &[Thread], thread: u32) -> u32
    ensures { result ≡ spec.stack_pointer_of threads.now thread }
{
    match threads.get(thread as usize).copied() {
        Some(thread) => thread.hart.reg(2),
        None => 0,
    }
}

/// Whether a byte can be stored to.
fn is_writable(memory: &Snapshot, address: u32) -> bool
    ensures { result ≡ spec.is_writable memory.now address }
{
    match memory.perm(address) {
        Some(perm) => perm.write,
        None => false,
    }
}
