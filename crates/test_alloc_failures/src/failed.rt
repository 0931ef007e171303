//! Why a case has no answer.
use std::alloc::AllocError;
use token::TurnFault;

/// Why a case has no answer.
#[derive(Clone, Copy)]
pub enum Failed {
    /// Memory ran out in its set-up.
    SetUp,
    /// A refused call changed something.
    Changed,
    /// The call was refused twice.
    Twice,
    /// A call that takes no memory was refused, or answered otherwise than it should.
    Other,
}

impl Failed {
    /// What is printed of it.
    pub fn text(self) -> &'static str {
        match self {
            Failed::SetUp => "its set-up was refused",
            Failed::Changed => "a refused call changed something",
            Failed::Twice => "it was refused twice",
            Failed::Other => "it has another answer",
        }
    }
}

impl From<AllocError> for Failed {
    /// Memory was refused.
    fn from(_error: AllocError) -> Self {
        Failed::SetUp
    }
}

impl From<TurnFault> for Failed {
    /// A turn was refused.
    fn from(_fault: TurnFault) -> Self {
        Failed::SetUp
    }
}
