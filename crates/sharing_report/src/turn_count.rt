//! The turns that changed a page, each counted once.
ghost use Rattle.std.specs.Prelude.{◌≡◌, ℕ, false, ◌-◌, ◌^◌, ◌<◌, ◌≤◌, List, [], ◌∷◌, ◌++◌, All, length};

/// How many different turns there were, told in their order.
#[derive(Clone, Copy, Debug)]
pub(crate) struct TurnCount {
    /// The last turn.
    last: Option<u64>,
    /// How many there were.
    count: u64,
}

impl TurnCount {
    ghost use Rattle.sharing_report.specs.Changers.{is_among};
    ghost use Rattle.sharing_report.specs.Tallies.{CountsTurns};

    /// No turn.
    pub(crate) fn new() -> Self
        ensures { CountsTurns result [] }
    {
        TurnCount {
            last: None,
            count: 0,
        }
    }

    /// How many there were.
    pub(crate) fn count(&self) -> u64
        ensures { result ≡ self.now.count }
    {
        self.count
    }

    /// A turn no earlier than the last one.
    pub(crate) fn add(&mut self, turn: u64)
        ensures { (turns : List ℕ) → CountsTurns self.old turns → All (λ other. other ≤ turn) turns →
            length turns < 2 ^ 64 - 1 → CountsTurns self.new (turns ++ turn ∷ []) }
    {
        match self.last {
            Some(last) => {
                if last != turn {
                    self.count_new(turn);
                }
            }
            None => self.count_new(turn),
        }
    }

    /// A turn that there wasn't yet.
    fn count_new(&mut self, turn: u64)
        ensures { (turns : List ℕ) → CountsTurns self.old turns → is_among turns turn ≡ false →
            All (λ other. other ≤ turn) turns → length turns < 2 ^ 64 - 1 → CountsTurns self.new (turns ++ turn ∷ []) }
    {
        self.last = Some(turn);
        self.count = self.count.saturating_add(1);
    }
}
