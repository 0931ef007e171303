//! The guest's bytes that a call loads or stores. Plain data.

/// The bytes of the guest's memory that a call loads or stores at most.
#[derive(Clone, Copy, Debug, PartialEq, Eq)]
pub enum Touched {
    /// None.
    Nothing,
    /// It loads so many from an address on.
    Loads { address: u32, length: u32 },
    /// It stores so many from an address on.
    Stores { address: u32, length: u32 },
}
