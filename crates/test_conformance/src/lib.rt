//! Tests of whole programs, by table: instructions, traps, runs, and the texts and reports of runs.
#![tactic(auto)]

#[cfg(test)]
mod accesses;
#[cfg(test)]
mod arithmetic;
#[cfg(test)]
mod control;
#[cfg(test)]
mod fixtures;
#[cfg(test)]
mod reports;
#[cfg(test)]
mod runs;
#[cfg(test)]
mod sharing;
#[cfg(test)]
mod sinks;
#[cfg(test)]
mod traces;
#[cfg(test)]
mod traps;
