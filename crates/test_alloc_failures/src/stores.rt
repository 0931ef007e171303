//! Stores to a memory.
use guest_memory::{GuestMemory, StoreFault};
use std::alloc::AllocError;

/// A store: its address and what is stored.
#[derive(Drop)]
pub enum Store {
    /// Of four bytes.
    Word(u32, u32),
    /// Of two bytes.
    Half(u32, u16),
    /// Of a byte.
    Byte(u32, u8),
}

impl Store {
    /// Makes it.
    pub fn make<M: GuestMemory>(&self, memory: &mut M) -> Result<(), StoreFault> {
        match self {
            Store::Word(address, value) => memory.store32(*address, *value),
            Store::Half(address, value) => memory.store16(*address, *value),
            Store::Byte(address, value) => memory.store8(*address, *value),
        }
    }
}
