//! Where an access is to be kept.
ghost use Rattle.std.specs.Prelude.{◌≡◌, ℕ, List};
ghost use Rattle.races.specs.Linked.{IsAt, IsSpot};
ghost use Rattle.races.specs.declared.kept_access.KeptAccess.{KeptAccess};
ghost use Rattle.races.specs.declared.latest.Latest.{Latest};

use crate::byte_set::ByteSet;

/// Where among the entries of its word an access is to be kept.
#[derive(Clone, Copy)]
pub(crate) enum Spot {
    /// In the place of the one at this index.
    At(usize),
    /// After the one at this index, the last one of its word.
    After(usize),
    /// As the first one of its word.
    First,
}

impl Spot {
    /// The spot once the next entry of the word, with these bytes and at this index, was passed.
    pub(crate) fn past(self, index: usize, bytes: ByteSet) -> Spot
        ensures { (firsts : List ℕ) (entries : List KeptAccess) (place number : ℕ) (own : Latest) (entry : KeptAccess)
            → IsSpot firsts entries place number own self → IsAt entries index entry → entry.place ≡ place → entry.latest.bytes ≡ bytes
            → IsSpot firsts entries place entry.next own result }
    {
        match self {
            Spot::At(_) => self,
            _ if bytes.is_empty() => Spot::At(index),
            _ => Spot::After(index),
        }
    }
}
