//! How a completed call is put into a hart's registers. Touches x10, x11 and pc alone.
ghost use Rattle.std.specs.Prelude.{◌≡◌};
ghost use Rattle.ecalls.specs.Answer.{finished};

use abi::Code;
use hart::Hart;

/// Completes the call that a hart at an ecall makes: x10 becomes the code's number, x11 the value where
/// there is one and stays as it is where there is none, and pc goes on after the ecall, modulo 2^32.
#[tactic(auto, unfolding(crate::specs::Answer::finished))]
pub fn finish(hart: &mut Hart, code: Code, value: Option<u32>)
    ensures { hart.new ≡ finished hart.old code value }
{
    hart.set_reg(10, code.number());
    if let Some(value) = value {
        hart.set_reg(11, value);
    }
    hart.set_pc(hart.pc().wrapping_add(4));
}
