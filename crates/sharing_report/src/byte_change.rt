//! A changed byte: by which turn, phase and thread.
ghost use Rattle.std.specs.Prelude.{◌≡◌, ◌++◌, IfOk, OnOk};
ghost use Rattle.sharing_report.specs.ByteChanges.{bytes_of, bytes_of_turn};

use guest_memory::layout::PAGE_SIZE;
use std::alloc::{AllocError, Global};
use token::TurnChange;

/// A byte that a turn changed.
#[derive(Clone, Copy)]
pub(crate) struct ByteChange {
    /// Which turn it was, counted from 0.
    pub(crate) turn: u64,
    /// The turn's phase.
    pub(crate) phase: u64,
    /// The turn's thread.
    pub(crate) thread: u32,
    /// The byte's address.
    pub(crate) address: u32,
    /// The address of the first byte of its page.
    pub(crate) page: u32,
}

/// The bytes that turns changed, in the order of the turns.
pub(crate) fn byte_changes(
    alloc: Global,
    changes: &[TurnChange],
) -> Result<Vec<ByteChange>, AllocError>
    ensures { IfOk result (λ bytes. bytes.items ≡ bytes_of changes.now) }
{
    let mut bytes = Vec::new(alloc);
    for (turn, change) in changes.iter().enumerate() {
        push_turn(&mut bytes, turn as u64, change)?;
    }
    Ok(bytes)
}

/// Appends the bytes that a turn changed.
fn push_turn(bytes: &mut Vec<ByteChange>, turn: u64, change: &TurnChange) -> Result<(), AllocError>
    ensures { OnOk result (bytes.new.items ≡ bytes.old.items ++ bytes_of_turn turn change.now) }
{
    let (phase, thread) = (change.phase(), change.thread());
    for changed in change.addresses() {
        let address = *changed;
        let page = address / PAGE_SIZE * PAGE_SIZE;
        bytes.push(ByteChange {
            turn,
            phase,
            thread,
            address,
            page,
        })?;
    }
    Ok(())
}
