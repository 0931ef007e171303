//! What of a schedule is made small.
ghost use Rattle.std.specs.Prelude.{◌≡◌};
ghost use Rattle.small_schedules.specs.Measures as spec;

use shuffled_phases::Shuffle;

/// What of a schedule is made small.
#[derive(Clone, Copy, Debug, PartialEq, Eq)]
pub(crate) enum Measure {
    /// The last phase that is shuffled.
    Last,
    /// How many phases before the last one are shuffled too.
    Before,
    /// How many choices the program makes by the number.
    Choices,
}

impl Measure {
    /// The schedule with so much of it.
    pub(crate) fn set(self, shuffle: Shuffle, amount: u64) -> Shuffle
        ensures { result ≡ spec.set self shuffle amount }
    {
        match self {
            Measure::Last => until(shuffle, amount),
            Measure::Before => Shuffle {
                first: shuffle.last.saturating_sub(amount).max(1),
                ..shuffle
            },
            Measure::Choices => Shuffle {
                choices: amount.min(u64::from(u32::MAX)) as u32,
                ..shuffle
            },
        }
    }
}

/// The schedule with another last phase. If that is 0, no phase is shuffled, and the first one is 1.
pub(crate) fn until(shuffle: Shuffle, last: u64) -> Shuffle
    ensures { result ≡ spec.until shuffle last }
{
    let first = if last == 0 { 1 } else { shuffle.first };
    Shuffle {
        first,
        last,
        ..shuffle
    }
}
