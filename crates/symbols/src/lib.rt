//! The symbols of ELF32 little-endian files: which object or function covers an address. No file is refused; what is damaged, missing or
//! out of range only leaves names out.
//!
//! - [`Symbols::read`] reads the symbol table of a file.
//! - [`Symbols::object_at`] and [`Symbols::function_at`] name an address.
#![tactic(auto)]

mod covering;
mod entry;
mod fields;
mod kept_symbol;
mod names;
mod reading;
mod section;
mod sections;
mod symbol_offset;
mod symbols;

pub use symbol_offset::SymbolOffset;
pub use symbols::Symbols;
