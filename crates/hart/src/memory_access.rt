//! The load or store that an instruction makes. Takes no memory.
ghost use Rattle.std.specs.Prelude.{◌≡◌, ◌≤◌, is_some, IfSome, Some};
ghost use Rattle.hart.specs.Accesses as spec;
ghost use Rattle.hart.specs.HartState.{HartState};

use crate::state::Hart;
use decoder::{Instr, Register};

/// A load or a store.
#[derive(Clone, Copy, Debug, PartialEq, Eq)]
pub struct MemoryAccess {
    /// The first address.
    pub address: u32,
    /// How many bytes.
    pub width: u32,
    /// It is a store.
    pub is_store: bool,
}

impl MemoryAccess {
    /// The load or store that an instruction makes on a hart, none if it makes none. Its address may be one that
    /// the memory refuses.
    #[tactic(auto, unfolding(crate::specs::Accesses::access_of))]
    #[inline(always)]
    pub fn of(hart: &Hart, instr: &Instr) -> Option<Self>
        ensures access { result ≡ spec.access_of hart.now instr.now }
        ensures width { IfSome result (λ access. access.width ≤ 4) }
    {
        match *instr {
            Instr::Lb { rs1, offset, .. } | Instr::Lbu { rs1, offset, .. } => {
                Some(MemoryAccess::load(hart, rs1, offset.word(), 1))
            }
            Instr::Lh { rs1, offset, .. } | Instr::Lhu { rs1, offset, .. } => {
                Some(MemoryAccess::load(hart, rs1, offset.word(), 2))
            }
            Instr::Lw { rs1, offset, .. } => Some(MemoryAccess::load(hart, rs1, offset.word(), 4)),
            Instr::Sb { rs1, offset, .. } => Some(MemoryAccess::store(hart, rs1, offset.word(), 1)),
            Instr::Sh { rs1, offset, .. } => Some(MemoryAccess::store(hart, rs1, offset.word(), 2)),
            Instr::Sw { rs1, offset, .. } => Some(MemoryAccess::store(hart, rs1, offset.word(), 4)),
            _ => None,
        }
    }

    /// Whether an instruction may load or store; one that may not makes no access on any hart.
    #[tactic(auto, unfolding(crate::specs::Accesses::access_of))]
    #[inline(always)]
    pub fn is_made_by(instr: &Instr) -> bool
        ensures { (hart : HartState) → is_some (spec.access_of hart instr.now) ≡ result }
    {
        match *instr {
            Instr::Lb { .. }
            | Instr::Lbu { .. }
            | Instr::Lh { .. }
            | Instr::Lhu { .. }
            | Instr::Lw { .. }
            | Instr::Sb { .. }
            | Instr::Sh { .. }
            | Instr::Sw { .. } => true,
            _ => false,
        }
    }

    /// A load of so many bytes at a register's address plus an offset.
    #[tactic(auto, unfolding(crate::specs::Arithmetic::sum))]
    #[inline(always)]
    fn load(hart: &Hart, base: Register, offset: u32, width: u32) -> Self
        ensures { Some result ≡ spec.load hart.now base offset width }
    {
        MemoryAccess {
            address: hart.reg(usize::from(base.number())).wrapping_add(offset),
            width,
            is_store: false,
        }
    }

    /// A store of so many bytes at a register's address plus an offset.
    #[tactic(auto, unfolding(crate::specs::Arithmetic::sum))]
    #[inline(always)]
    fn store(hart: &Hart, base: Register, offset: u32, width: u32) -> Self
        ensures { Some result ≡ spec.store hart.now base offset width }
    {
        MemoryAccess {
            address: hart.reg(usize::from(base.number())).wrapping_add(offset),
            width,
            is_store: true,
        }
    }
}
