//! What the recorders say of a history.
use crate::of_races::told::{Told, event_of};
use races::{Finding, FindingRecorder, Race, RaceRecorder, findings_text};
use std::alloc::{AllocError, Global};
use symbols::Symbols;

/// The races of a history.
pub fn recorded(alloc: Global, history: &[Told]) -> Result<Vec<Race>, AllocError> {
    let mut recorder = RaceRecorder::new(alloc)?;
    for told in history {
        recorder.record(&event_of(alloc, *told)?)?;
    }
    recorder.races()
}

/// All that is found in a history.
pub fn found(alloc: Global, history: &[Told]) -> Result<Vec<Finding>, AllocError> {
    let mut recorder = FindingRecorder::new(alloc)?;
    for told in history {
        match *told {
            Told::Access(access) => recorder.record_access(&access)?,
            _ => recorder.record(&event_of(alloc, *told)?)?,
        }
    }
    recorder.findings()
}

/// The text of findings.
pub fn text_of(alloc: Global, findings: &[Finding]) -> Result<String, AllocError> {
    findings_text(alloc, findings, &Symbols::read(alloc, b"")?)
}

/// The text of races.
pub fn text_of_races(alloc: Global, races: &[Race]) -> Result<String, AllocError> {
    let findings: Vec<Finding> = races
        .iter()
        .map(|race| Finding::Race(*race))
        .collect(alloc)?;
    text_of(alloc, &findings)
}
