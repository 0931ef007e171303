//! Which call a hart's registers name. Reads the hart alone.
ghost use Rattle.std.specs.Prelude.{◌≡◌, take};
ghost use Rattle.abi.specs.Calls.{argument_count, arguments_in, kind_in, kind_of};
ghost use Rattle.hart.specs.HartState.{register};
ghost use Rattle.ecalls.specs.Request as spec;

use abi::{Call, CallKind};
use hart::Hart;

/// The call that a hart at an ecall makes: its number stands in x17, its arguments in x10, x11 and x12.
///
/// Any number and any arguments are read. Their ranges are looked at when the call is carried out.
#[tactic(auto, unfolding(crate::specs::Request::call_of))]
pub fn call_of(hart: &Hart) -> Call
    ensures call { result ≡ spec.call_of hart.now }
    ensures kind { kind_in result ≡ kind_of (register hart.now 17) }
    ensures arguments { arguments_in result ≡ take (argument_count (kind_in result)) (spec.argument_registers hart.now) }
{
    let first = hart.reg(10);
    let second = hart.reg(11);
    let third = hart.reg(12);
    let number = hart.reg(17);
    let Some(kind) = CallKind::from_number(number) else {
        return Call::Unknown { number };
    };
    match kind {
        CallKind::Exit => Call::Exit { status: first },
        CallKind::ThreadExit => Call::ThreadExit { value: first },
        CallKind::Create => Call::Create {
            entry: first,
            argument: second,
            stack_pointer: third,
        },
        CallKind::Join => Call::Join { thread: first },
        CallKind::Lock => Call::Lock { mutex: first },
        CallKind::Unlock => Call::Unlock { mutex: first },
        CallKind::Wait => Call::Wait {
            condition: first,
            mutex: second,
        },
        CallKind::Signal => Call::Signal { condition: first },
        CallKind::Broadcast => Call::Broadcast { condition: first },
        CallKind::Barrier => Call::Barrier {
            barrier: first,
            count: second,
        },
        CallKind::Write => Call::Write {
            address: first,
            length: second,
        },
        CallKind::Read => Call::Read {
            address: first,
            length: second,
        },
        CallKind::Memory => Call::Memory { pages: first },
        CallKind::Sync => Call::Sync,
        CallKind::Release => Call::Release {
            address: first,
            pages: second,
        },
    }
}
