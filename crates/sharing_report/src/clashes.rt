//! The addresses of a page at which threads met, counted as turns are done.
ghost use Rattle.std.specs.Prelude.{◌≡◌, ℕ, ◌+◌, ◌-◌, ◌^◌, ◌<◌, ◌≤◌, List, [], ◌∷◌, ◌++◌, All, IfOk, length, vec_len};

use crate::changer::Changer;
use std::alloc::{AllocError, Global};

/// At how many phases and bytes of a page at least two threads met, told in the order of the phases.
#[derive(Drop)]
pub(crate) struct Clashes {
    /// The last phase.
    phase: u64,
    /// Who changed each of the page's 4096 bytes in it.
    changers: Vec<Changer>,
    /// How many bytes at least two threads changed, over the phases.
    count: u64,
    ghost full: { vec_len changers ≡ 4096 },
}

impl Clashes {
    ghost use Rattle.sharing_report.specs.Tallies.{CountsClashes, IsPhaseOfPage};
    ghost use Rattle.sharing_report.specs.declared.mark.Mark.{Mark as PlaceMark};
    ghost use Rattle.sharing_report.specs.declared.mark.PhaseAddress.{PhaseAddress as PhaseSpot};

    /// No phase.
    pub(crate) fn new(alloc: Global) -> Result<Self, AllocError>
        ensures { IfOk result (λ clashes. (page : ℕ) → CountsClashes clashes page []) }
    {
        Ok(Clashes {
            phase: 0,
            changers: vec![in alloc; Changer::Nobody; 4096]?,
            count: 0,
        })
    }

    /// How many bytes at least two threads changed, over the phases.
    pub(crate) fn count(&self) -> u64
        ensures { result ≡ self.now.count }
    {
        self.count
    }

    /// A thread changed the byte at this place of the page, in a phase no earlier than the last one.
    pub(crate) fn add(&mut self, phase: u64, place: usize, thread: u8)
        requires { place < 4096 }
        ensures { (page : ℕ) (marks : List (PlaceMark PhaseSpot)) →
            CountsClashes self.old page marks → All (λ mark. mark.place.phase ≤ phase) marks → length marks < 2 ^ 64 - 1 →
            CountsClashes self.new page
            (marks ++ record { place = record { phase = phase; address = page + place }; thread = thread } ∷ []) }
    {
        self.begin(phase);
        let mut changer = self.changers[place];
        let is_second = changer.add(thread);
        self.changers[place] = changer;
        if is_second {
            self.count = self.count.saturating_add(1);
        }
    }

    /// The last phase is this one.
    fn begin(&mut self, phase: u64)
        ensures { (page : ℕ) (marks : List (PlaceMark PhaseSpot)) →
            CountsClashes self.old page marks → All (λ mark. mark.place.phase ≤ phase) marks → IsPhaseOfPage self.new page phase marks }
    {
        if phase != self.phase {
            self.phase = phase;
            self.changers.fill(Changer::Nobody);
        }
    }
}
