//! Who changed something in a phase: nobody, one thread, or several.
ghost use Rattle.std.specs.Prelude.{◌≡◌, ℕ, ◌&&◌, not, List, [], ◌∷◌, ◌++◌};

/// Who changed something in a phase.
#[derive(Clone, Copy, Debug)]
pub(crate) enum Changer {
    /// No thread.
    Nobody,
    /// This thread alone.
    One(u8),
    /// At least two threads.
    Several,
}

impl Changer {
    ghost use Rattle.sharing_report.specs.Changers.{IsChanger, two_of};

    /// A thread changed it. Answers whether it is the second one.
    pub(crate) fn add(&mut self, thread: u8) -> bool
        ensures changer { (threads : List ℕ) → IsChanger self.old threads → IsChanger self.new (threads ++ thread ∷ []) }
        ensures second { (threads : List ℕ) → IsChanger self.old threads →
            result ≡ (not (two_of threads) && two_of (threads ++ thread ∷ [])) }
    {
        match *self {
            Changer::Nobody => {
                *self = Changer::One(thread);
                false
            }
            Changer::One(other) => {
                if other == thread {
                    false
                } else {
                    *self = Changer::Several;
                    true
                }
            }
            Changer::Several => false,
        }
    }
}
