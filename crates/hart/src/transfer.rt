//! The loads and stores of the instructions.

ghost use Rattle.std.specs.Prelude.{◌≡◌, ℕ, ◌%◌, ◌^◌, Result};
ghost use Rattle.std.specs.Int.{w8, w16};
ghost use Rattle.guest_memory.specs.Memory.{Memory, loaded, stored};
ghost use Rattle.guest_memory.specs.Stores.{Stores, IsOutOfMemory as IsRefused};
ghost use Rattle.guest_memory.specs.declared.fault.AccessFault.{AccessFault as Fault};
ghost use Rattle.hart.specs.Arithmetic.{sign_extended};
ghost use Rattle.hart.specs.Next.{loads, stores, viewed};
ghost use Rattle.hart.specs.Executes.{StoresAt};
ghost use Rattle.hart.specs.HartState.{with_pc};
ghost use Rattle.hart.specs.Flows.{Flows, IsOutOfMemory, Computes};

use crate::arithmetic::{extended_byte, extended_half};
use crate::cause::Cause;
use crate::flow::{Flow, trapped};
use crate::state::Hart;
use decoder::Register;
use guest_memory::{AccessFault, GuestMemory, StoreFault};

impl Hart {
    /// Puts what a load answered into a register.
    #[tactic(auto, unfolding(crate::specs::Next::loads))]
    #[inline(always)]
    pub(crate) fn load(
        &mut self,
        rd: Register,
        address: u32,
        answer: Result<u32, AccessFault>,
    ) -> Flow
        ensures { Computes (λ hart memory. loads hart memory rd address answer) result self.old self.new }
    {
        match answer {
            Ok(value) => self.put(rd, value),
            Err(AccessFault::Misaligned) => trapped(Cause::LoadMisaligned, address),
            Err(AccessFault::Denied) => trapped(Cause::LoadDenied, address),
        }
    }

    /// Goes on after a store, as it answered.
    #[tactic(auto, unfolding(crate::specs::Next::stores))]
    #[inline(always)]
    fn store(&self, address: u32, answer: Result<(), StoreFault>) -> Flow
        ensures flows { (pc : ℕ) (before after : Memory) (wanted : Result Memory Fault) → Stores answer before wanted after
            → Flows result (stores (with_pc self.now pc) address wanted) pc self.now before self.now after }
        ensures grows { IsOutOfMemory result → IsRefused answer }
    {
        match answer {
            Ok(()) => Flow::Next,
            Err(StoreFault::Refused(AccessFault::Misaligned)) => trapped(
                Cause::StoreMisaligned,
                address,
            ),
            Err(StoreFault::Refused(AccessFault::Denied)) => trapped(Cause::StoreDenied, address),
            Err(StoreFault::OutOfMemory(error)) => Flow::OutOfMemory(error),
        }
    }
}

/// The byte at an address as a signed number.
#[inline(always)]
pub fn signed_byte<M: GuestMemory>(memory: &M, address: u32) -> Result<u32, AccessFault>
    ensures { result ≡ viewed (sign_extended w8) (loaded 1 (M.cells memory.now) address) }
{
    Ok(extended_byte(memory.load8(address)?))
}

/// The two bytes from an address on as a signed number.
#[inline(always)]
pub fn signed_half<M: GuestMemory>(memory: &M, address: u32) -> Result<u32, AccessFault>
    ensures { result ≡ viewed (sign_extended w16) (loaded 2 (M.cells memory.now) address) }
{
    Ok(extended_half(memory.load16(address)?))
}

/// The byte at an address.
#[inline(always)]
pub fn byte<M: GuestMemory>(memory: &M, address: u32) -> Result<u32, AccessFault>
    ensures { result ≡ loaded 1 (M.cells memory.now) address }
{
    Ok(u32::from(memory.load8(address)?))
}

/// The two bytes from an address on.
#[inline(always)]
pub fn half<M: GuestMemory>(memory: &M, address: u32) -> Result<u32, AccessFault>
    ensures { result ≡ loaded 2 (M.cells memory.now) address }
{
    Ok(u32::from(memory.load16(address)?))
}

/// Stores the low byte of a word.
#[tactic(auto, using(crate::proofs::Keeping::stores_keep))]
#[inline(always)]
pub fn store_byte<M: GuestMemory>(hart: &Hart, memory: &mut M, address: u32, value: u32) -> Flow
    ensures { StoresAt M.cells M.grows M.base address (stored 1 (M.cells memory.old) address (value % 2 ^ 8)) result
        hart.now memory.old memory.new }
{
    let answer = memory.store8(address, (value % 256) as u8);
    hart.store(address, answer)
}

/// Stores the low two bytes of a word.
#[tactic(auto, using(crate::proofs::Keeping::stores_keep))]
#[inline(always)]
pub fn store_half<M: GuestMemory>(hart: &Hart, memory: &mut M, address: u32, value: u32) -> Flow
    ensures { StoresAt M.cells M.grows M.base address (stored 2 (M.cells memory.old) address (value % 2 ^ 16)) result
        hart.now memory.old memory.new }
{
    let answer = memory.store16(address, (value % 65_536) as u16);
    hart.store(address, answer)
}

/// Stores a word.
#[tactic(auto, using(crate::proofs::Keeping::stores_keep))]
#[inline(always)]
pub fn store_word<M: GuestMemory>(hart: &Hart, memory: &mut M, address: u32, value: u32) -> Flow
    ensures { StoresAt M.cells M.grows M.base address (stored 4 (M.cells memory.old) address value) result
        hart.now memory.old memory.new }
{
    let answer = memory.store32(address, value);
    hart.store(address, answer)
}
