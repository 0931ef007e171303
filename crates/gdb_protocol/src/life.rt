//! Whether the program that is debugged is there.
/// Whether the program that is debugged is there for gdb.
#[derive(Clone, Copy, Debug, PartialEq, Eq)]
pub(crate) enum Life {
    /// It is.
    Alive,
    /// It has ended or gdb let it go, and what asks of it is refused.
    Gone,
    /// The session is over.
    Over,
}
