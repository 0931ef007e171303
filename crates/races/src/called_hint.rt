//! A hint with the call of the library that gave it.
use crate::hint_kind::HintKind;
use crate::library_call::LibraryCall;

/// A hint with the call of the library that gave it.
#[derive(Clone, Copy)]
pub(crate) struct CalledHint {
    /// The call.
    pub(crate) call: LibraryCall,
    /// The hint's kind.
    pub(crate) kind: HintKind,
    /// The object.
    pub(crate) object: u32,
}
