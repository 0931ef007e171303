//! The line of a misuse.
ghost use Rattle.std.specs.Prelude.{◌≡◌, ◌++◌, OnOk};
ghost use Rattle.std.specs.String.{string_bytes};
ghost use Rattle.races.specs.LockTexts.{holder_text, misuse_name, misuse_text, object_text};

use crate::call_text::{write_call, write_time};
use crate::hint_kind::HintKind;
use crate::library_call::LibraryCall;
use crate::misuse::Misuse;
use crate::place_text::{write_number, write_place_or};
use std::alloc::AllocError;
use symbols::Symbols;

/// Appends the line of a misuse, as `misuse unlock-of-anothers object=m+0 thread=2 turn=14+9 in=work+36 held-by thread=1 since=11+4`.
/// The holder is left out if nobody holds the object.
///
/// # Errors
///
/// Only out of memory.
#[tactic(auto, unfolding(crate::specs::LockTexts::misuse_text))]
pub fn write_misuse(text: &mut String, misuse: &Misuse, symbols: &Symbols) -> Result<(), AllocError>
    ensures { OnOk result (string_bytes text.new ≡ string_bytes text.old ++ misuse_text symbols.now misuse.now) }
{
    text.push_str("misuse ")?;
    text.push_str(name_of(misuse.kind))?;
    write_object(text, misuse.object, symbols)?;
    write_call(text, misuse.call, symbols)?;
    write_holder(text, misuse.holder)?;
    text.push_str("\n")
}

/// Appends an object, as ` object=m+0`, or ` address=20000410` if none covers it.
#[tactic(auto, unfolding(crate::specs::LockTexts::object_text))]
fn write_object(text: &mut String, object: u32, symbols: &Symbols) -> Result<(), AllocError>
    ensures { OnOk result (string_bytes text.new ≡ string_bytes text.old ++ object_text symbols.now object) }
{
    write_place_or(
        text,
        " object=",
        symbols.object_at(object),
        " address=",
        object,
    )
}

/// Appends who holds an object, as ` held-by thread=1 since=11+4`.
#[tactic(auto, unfolding(crate::specs::LockTexts::holder_text))]
fn write_holder(text: &mut String, holder: Option<LibraryCall>) -> Result<(), AllocError>
    ensures { OnOk result (string_bytes text.new ≡ string_bytes text.old ++ holder_text holder) }
{
    match holder {
        Some(call) => {
            write_number(text, " held-by thread=", u64::from(call.thread))?;
            write_time(text, " since=", call)
        }
        None => Ok(()),
    }
}

/// The name of a kind of misuse.
#[tactic(auto, unfolding(crate::specs::LockTexts::misuse_name))]
fn name_of(kind: HintKind) -> &'static str
    ensures { result.now ≡ misuse_name kind }
{
    match kind {
        HintKind::UnlockOfAnothers => "unlock-of-anothers",
        HintKind::UnlockOfFree => "unlock-of-free",
        HintKind::EndWithLock => "end-with-lock",
        HintKind::DestroyOfHeld => "destroy-of-held",
        HintKind::DestroyOfWaited => "destroy-of-waited",
        HintKind::WaitWithoutLock => "wait-without-lock",
        HintKind::WaitWithAnother => "wait-with-another",
        HintKind::TakenTwice => "taken-twice",
        HintKind::WriteByReader => "write-by-reader",
        _ => "other",
    }
}
