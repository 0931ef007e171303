//! The phases in which at least two threads changed a page, counted as turns are done.
ghost use Rattle.std.specs.Prelude.{◌≡◌, ℕ, ◌-◌, ◌^◌, ◌<◌, ◌≤◌, List, [], ◌∷◌, ◌++◌, All, length};

use crate::changer::Changer;

/// In how many phases at least two threads changed a page, told in the order of the phases.
#[derive(Clone, Copy, Debug)]
pub(crate) struct SharedPhases {
    /// The last phase.
    phase: u64,
    /// Who changed the page in it.
    changer: Changer,
    /// How many phases there were with at least two threads.
    count: u64,
}

impl SharedPhases {
    ghost use Rattle.sharing_report.specs.Tallies.{CountsShared, IsInPhase};
    ghost use Rattle.sharing_report.specs.declared.mark.Mark.{Mark as PlaceMark};

    /// No phase.
    pub(crate) fn new() -> Self
        ensures { CountsShared result [] }
    {
        SharedPhases {
            phase: 0,
            changer: Changer::Nobody,
            count: 0,
        }
    }

    /// How many phases there were with at least two threads.
    pub(crate) fn count(&self) -> u64
        ensures { result ≡ self.now.count }
    {
        self.count
    }

    /// A thread changed the page in a phase no earlier than the last one.
    pub(crate) fn add(&mut self, phase: u64, thread: u8)
        ensures { (marks : List (PlaceMark ℕ)) → CountsShared self.old marks →
            All (λ mark. mark.place ≤ phase) marks → length marks < 2 ^ 64 - 1 →
            CountsShared self.new (marks ++ record { place = phase; thread = thread } ∷ []) }
    {
        self.begin(phase);
        if self.changer.add(thread) {
            self.count = self.count.saturating_add(1);
        }
    }

    /// The last phase is this one.
    fn begin(&mut self, phase: u64)
        ensures { (marks : List (PlaceMark ℕ)) → CountsShared self.old marks →
            All (λ mark. mark.place ≤ phase) marks → IsInPhase self.new phase marks }
    {
        if phase != self.phase {
            self.phase = phase;
            self.changer = Changer::Nobody;
        }
    }
}
