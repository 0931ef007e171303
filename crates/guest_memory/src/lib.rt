//! What a guest's memory is: its layout, its permissions, and the trait of everything that a hart can load from and store to.
#![tactic(auto)]

pub mod access;
pub mod fault;
pub mod layout;
pub mod perm;

pub use access::GuestMemory;
pub use fault::{AccessFault, StoreFault};
pub use perm::Perm;
