//! What an address is called.
/// What an address is called: the name of the symbol that covers it, and how far after the symbol's first byte it is.
#[derive(Clone, Copy, Debug, PartialEq, Eq)]
pub struct SymbolOffset<'a> {
    /// The symbol's name: 1 to 255 printable ASCII bytes, without a space or `=`.
    pub name: &'a [u8],
    /// The address, less the symbol's first address, in bytes.
    pub offset: u32,
}
