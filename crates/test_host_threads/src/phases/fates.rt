//! What became of jobs, in short.

use hart::Stop;
use parallel_phase::Outcome;

/// What became of a job, without its memory.
#[derive(Clone, Copy, PartialEq, Eq)]
pub enum Fate {
    /// It was run to this stop, executed so many instructions, and left pc here.
    Ran(Stop, u64, u32),
    Skipped,
}

/// What became of a job.
fn fate_of(outcome: &Outcome) -> Fate {
    match outcome {
        Outcome::Ran(ran) => {
            let end = ran.end();
            Fate::Ran(end.stop, end.count, end.hart.pc())
        }
        Outcome::Skipped => Fate::Skipped,
    }
}

/// Whether these became of jobs.
pub fn are(outcomes: &[Outcome], wanted: &[Fate]) -> bool {
    for place in 0..wanted.len() {
        let outcome = outcomes.get(place);
        if outcome.is_none_or(|outcome| fate_of(outcome) != wanted[place]) {
            return false;
        }
    }
    outcomes.len() == wanted.len()
}

/// Whether this became of so many jobs.
pub fn are_all(outcomes: &[Outcome], count: usize, wanted: Fate) -> bool {
    for outcome in outcomes {
        if fate_of(outcome) != wanted {
            return false;
        }
    }
    outcomes.len() == count
}
