//! Ways to make a run besides the run time's: by events that a seed picks, and phase by phase. Its tests are of what a run by written
//! events lends in the middle.
//!
//! [`Dice`] picks events, which need not be enabled, and [`walk_to_end`] makes them happen in a world until its run ends. [`trace_of`]
//! makes a run phase by phase, in which a taker does the turns in order while later jobs run, and answers its trace.
#![tactic(auto)]

mod dice;
#[cfg(test)]
mod lent;
mod phase_turns;
mod walker;
mod whole_runs;

pub use dice::Dice;
pub use phase_turns::PhaseTurns;
pub use walker::walk_to_end;
pub use whole_runs::trace_of;
