//! What a view changed, as a patch, and its byte-wise merge into a snapshot.
#![tactic(auto)]

mod changed_page;
mod changed_pages;
mod comparison;
mod group;
pub mod kernels;
pub mod merging;
mod mine;
pub mod patch;

pub use kernels::{count_page, merge_page};
pub use merging::apply;
pub use patch::{Patch, changed, changed_addresses};
