//! Jumps and branches, as methods of a hart.
ghost use Rattle.hart.specs.Next.{puts, jumps, branches};
ghost use Rattle.hart.specs.Places.{pc_of};
ghost use Rattle.hart.specs.Flows.{Computes, ComputesAt};

use crate::arithmetic::sum;
use crate::cause::Cause;
use crate::flow::{Flow, trapped};
use crate::instruction_place::InstructionPlace;
use crate::state::Hart;
use decoder::{BranchOffset, Register};

impl Hart {
    /// Sets a register, and goes on.
    #[inline(always)]
    pub(crate) fn put(&mut self, rd: Register, value: u32) -> Flow
        ensures { Computes (λ hart memory. puts hart memory rd value) result self.old self.new }
    {
        self.set_reg(usize::from(rd.number()), value);
        Flow::Next
    }

    /// Jumps from a place to a target, with the address of the next instruction in a register.
    #[tactic(auto, unfolding(crate::specs::Next::jumps))]
    #[inline(always)]
    pub(crate) fn jump(&mut self, place: InstructionPlace, rd: Register, target: u32) -> Flow
        ensures { ComputesAt (λ hart memory. jumps hart memory rd target) (pc_of place) result self.old self.new }
    {
        if target % 4 != 0 {
            return trapped(Cause::TargetMisaligned, target);
        }
        self.set_reg(usize::from(rd.number()), place.pc().wrapping_add(4));
        Flow::Jumps(target)
    }

    /// Jumps from a place if the branch is taken, and else goes on.
    #[tactic(auto, unfolding(crate::specs::Next::branches, crate::specs::Arithmetic::sum))]
    #[inline(always)]
    pub(crate) fn branch(
        &mut self,
        place: InstructionPlace,
        taken: bool,
        offset: BranchOffset,
    ) -> Flow
        ensures { ComputesAt (λ hart memory. branches hart memory taken offset) (pc_of place) result self.old self.new }
    {
        if !taken {
            return Flow::Next;
        }
        self.jump(place, Register::new(0), sum(place.pc(), offset.word()))
    }
}
