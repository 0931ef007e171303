//! The event that an instruction is: the load or store that it makes, or a hint.
ghost use Rattle.std.specs.Prelude.{◌≡◌, ◌≤◌, ◌<◌, ◌+◌, ◌^◌, ◌%◌, ◌/◌, ℕ, None, IsTrue};
ghost use Rattle.decoded_code.specs.Code.{HasCode, entry_at};
ghost use Rattle.hart.specs.HartState.{HartState, with_pc};
ghost use Rattle.races.specs.Ranges as ranges;
ghost use Rattle.observed_run.specs.Events as spec;
ghost use Rattle.observed_run.specs.declared.actor.Actor.{Actor as Author};

use crate::actor::Actor;
use decoded_code::{CodeSlice, entry as entry_of_word};
use decoder::{Instr, Register};
use guest_memory::GuestMemory;
use hart::{Hart, MemoryAccess};
use races::{Access, ByteSet, HintEvent, HintKind, ObservedEvent, Site};

/// The event that an instruction of a thread is at an address, none if it loads and stores nothing and is no hint.
fn event_of(actor: Actor, hart: &Hart, pc: u32, instr: &Instr) -> Option<ObservedEvent>
    ensures { result ≡ spec.event_of actor (with_pc hart.now pc) instr.now }
{
    match access_of(actor, hart, pc, instr) {
        Some(access) => Some(ObservedEvent::Access(access)),
        None => hint_of(actor, hart, pc, instr),
    }
}

/// The access that an instruction of a thread makes at an address, if it loads or stores.
#[inline(always)]
pub(crate) fn access_of(actor: Actor, hart: &Hart, pc: u32, instr: &Instr) -> Option<Access>
    ensures { result ≡ spec.access_of actor (with_pc hart.now pc) instr.now }
{
    match MemoryAccess::of(hart, instr) {
        Some(made) => Some(made_by(actor, pc, &made)),
        None => None,
    }
}

/// The hint that an instruction of a thread is.
#[tactic(auto, unfolding(crate::specs::Events::hint_of))]
fn hint_of(actor: Actor, hart: &Hart, pc: u32, instr: &Instr) -> Option<ObservedEvent>
    ensures { result ≡ spec.hint_of actor (with_pc hart.now pc) instr.now }
{
    match *instr {
        Instr::Slt { rd, rs1, rs2 } if rd.number() == 0 => signed_hint(actor, hart, rs1, rs2),
        Instr::Sltu { rd, rs1, rs2 } if rd.number() == 0 => unsigned_hint(actor, hart, rs1, rs2),
        Instr::Slti { rd, rs1, immediate } if rd.number() == 0 => {
            let value = hart.reg(usize::from(rs1.number()));
            numbered_hint(actor, pc, value, immediate.word())
        }
        _ => None,
    }
}

/// Whether an instruction is no event, whatever the hart: it neither loads nor stores and is no hint.
#[tactic(auto, unfolding(crate::specs::Events::access_of, crate::specs::Events::hint_of, hart::specs::Accesses::access_of))]
#[inline(always)]
pub(crate) fn is_silent(instr: &Instr) -> bool
    ensures { IsTrue result → (actor : Author) (hart : HartState) → spec.event_of actor hart instr.now ≡ None }
{
    match *instr {
        Instr::Slt { rd, .. } | Instr::Sltu { rd, .. } | Instr::Slti { rd, .. } => rd.number() != 0,
        _ => !MemoryAccess::is_made_by(instr),
    }
}

/// The access of a thread that its instruction at an address makes.
#[inline(always)]
fn made_by(actor: Actor, pc: u32, made: &MemoryAccess) -> Access
    requires { made.now.width ≤ 4 }
    ensures { result ≡ spec.made_by actor pc made.now }
{
    let site = if made.is_store {
        actor.store(pc)
    } else {
        actor.load(pc)
    };
    access_at(site, made.address, made.width)
}

/// An access of so many bytes at an address, all in one word.
#[inline(always)]
fn access_at(site: Site, address: u32, width: u32) -> Access
    requires { width ≤ 4 }
    ensures { result ≡ spec.access_at site address width }
{
    Access {
        site,
        word: address / 4,
        bytes: bytes_from(address % 4, width),
    }
}

/// The bytes of a word from a place on, so many.
#[inline(always)]
fn bytes_from(from: u32, width: u32) -> ByteSet
    requires { from + width < 2 ^ 32 }
    ensures { (address : ℕ) → address % 4 ≡ from → result ≡ ranges.bytes_in (address / 4) address width }
{
    if from == 0 && width == 4 {
        return ByteSet {
            first: true,
            second: true,
            third: true,
            fourth: true,
        };
    }
    ByteSet {
        first: is_within(0, from, width),
        second: is_within(1, from, width),
        third: is_within(2, from, width),
        fourth: is_within(3, from, width),
    }
}

/// Whether a place of a word is among those from another on, so many.
#[inline(always)]
fn is_within(place: u32, from: u32, width: u32) -> bool
    requires { from + width < 2 ^ 32 }
    ensures { (address : ℕ) → address % 4 ≡ from → result ≡ ranges.is_among (address / 4) place address width }
{
    from <= place && place < from + width
}

/// The hint that SLT into x0 is.
fn signed_hint(actor: Actor, hart: &Hart, rs1: Register, rs2: Register) -> Option<ObservedEvent>
    ensures { result ≡ spec.signed_hint actor hart.now rs1 rs2 }
{
    let thread = actor.thread;
    match (rs1.number(), rs2.number()) {
        (0, 0) => Some(ObservedEvent::Leave { thread }),
        (0, object) => Some(ObservedEvent::Release {
            thread,
            object: hart.reg(usize::from(object)),
        }),
        (object, 0) => Some(ObservedEvent::Acquire {
            thread,
            object: hart.reg(usize::from(object)),
        }),
        _ => None,
    }
}

/// The hint that SLTU into x0 is.
fn unsigned_hint(actor: Actor, hart: &Hart, rs1: Register, rs2: Register) -> Option<ObservedEvent>
    ensures { result ≡ spec.unsigned_hint actor hart.now rs1 rs2 }
{
    let thread = actor.thread;
    match (rs1.number(), rs2.number()) {
        (0, 0) => Some(ObservedEvent::Enter { thread }),
        (0, _) | (_, 0) => None,
        (address, length) => Some(ObservedEvent::Fresh {
            address: hart.reg(usize::from(address)),
            length: hart.reg(usize::from(length)),
        }),
    }
}

/// The hint that SLTI into x0 is at an address, with this value in its register and this immediate.
fn numbered_hint(actor: Actor, pc: u32, value: u32, number: u32) -> Option<ObservedEvent>
    ensures { result ≡ spec.numbered_hint actor pc value number }
{
    let thread = actor.thread;
    match number {
        1 => Some(ObservedEvent::Caller { thread, pc: value }),
        2 => Some(ObservedEvent::Length {
            thread,
            length: value,
        }),
        _ => {
            let kind = HintKind::from_number(number)?;
            Some(ObservedEvent::Hint(HintEvent {
                site: actor.hint(pc),
                kind,
                object: value,
            }))
        }
    }
}

/// The event that the next instruction of a thread is.
pub(crate) fn next_event<M: GuestMemory>(
    actor: Actor,
    code: &CodeSlice<'_>,
    hart: &Hart,
    memory: &M,
) -> Option<ObservedEvent>
    requires { HasCode code.now.start code.now.entries.now (M.cells memory.now) }
    ensures { result ≡ spec.next_event actor hart.now (M.cells memory.now) }
{
    let pc = hart.pc();
    match code.at(pc) {
        Some(entry) => event_of(actor, hart, pc, entry),
        None => event_of(actor, hart, pc, &entry_in(memory, pc)),
    }
}

/// The entry that decoded code has of the word at an address.
#[tactic(auto, unfolding(decoded_code::specs::Code::entry_at))]
fn entry_in<M: GuestMemory>(memory: &M, pc: u32) -> Instr
    requires { pc % 4 ≡ 0 }
    ensures { result ≡ entry_at (M.cells memory.now) pc }
{
    match memory.fetch(pc) {
        Some(word) => entry_of_word(word),
        None => Instr::Ebreak,
    }
}
