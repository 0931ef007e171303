//! A misuse of an object, as a library told it.
ghost use Rattle.std.specs.Prelude.{◌≡◌};
ghost use Rattle.races.specs.Misuses.{is_same_misuse};

use crate::hint_kind::HintKind;
use crate::library_call::LibraryCall;

/// A misuse of an object: a hint of a kind from [`HintKind::UnlockOfAnothers`] on.
#[derive(Clone, Copy, Debug, PartialEq, Eq)]
pub struct Misuse {
    /// The call of the library that told it.
    pub call: LibraryCall,
    /// Its kind.
    pub kind: HintKind,
    /// The object.
    pub object: u32,
    /// The call by which the object's holder took it, none if nobody holds it. Of several threads that share it, the first in number.
    pub holder: Option<LibraryCall>,
}

impl Misuse {
    /// Whether both are of one kind and one object, at the same place in the program.
    pub(crate) fn is_same(&self, other: &Misuse) -> bool
        ensures { result ≡ is_same_misuse self.now other.now }
    {
        self.call.pc == other.call.pc
            && self.object == other.object
            && self.kind.number() == other.kind.number()
    }
}
