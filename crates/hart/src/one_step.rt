//! One instruction of a hart, from fetch to the next pc.
ghost use Rattle.std.specs.Prelude.{◌≡◌, ℕ};
ghost use Rattle.hart.specs.Next.{next};
ghost use Rattle.hart.specs.Stored.{next_store, IsOutOfMemory, StoresWhere};
ghost use Rattle.hart.specs.Steps.{Steps};

use crate::segment::run_to_stop;
use crate::state::Hart;
use crate::stepped::Stepped;
use crate::stop::Stop;
use guest_memory::GuestMemory;

/// Executes one instruction.
///
/// It is a segment that may execute one. So instructions are executed in one place, which the compiler puts
/// into the loop of a segment.
pub fn step<M: GuestMemory>(hart: &mut Hart, memory: &mut M) -> Stepped
    ensures steps { Steps result (next hart.old (M.cells memory.old)) hart.old (M.cells memory.old) hart.new (M.cells memory.new) }
    ensures grows { IsOutOfMemory result → StoresWhere (M.grows memory.old) (next_store hart.old (M.cells memory.old)) }
    ensures settles { (address : ℕ) → M.grows memory.new address → M.grows memory.old address }
    ensures base { M.base memory.new ≡ M.base memory.old }
{
    match run_to_stop(hart, memory, 1, None) {
        Ok((Stop::Ecall, _)) => Stepped::Ecall,
        Ok((Stop::Trap(trap), count)) => {
            if count == 0 {
                Stepped::Trap(trap)
            } else {
                Stepped::Next
            }
        }
        Ok((Stop::Quantum, _)) => unreachable!(),
        Err(error) => Stepped::OutOfMemory(error),
    }
}
