//! The recorder of all findings: it is told a run's events one after another, and tells each part of it.
ghost use Rattle.std.specs.Prelude.{◌≡◌, List, [], ◌∷◌, ◌++◌, IfOk, OnErr, OnOk, true, false, map};
ghost use Rattle.races.specs.Findings.{AreFindings, FindingRecords, FindingRecordsMore, found_in};
ghost use Rattle.races.specs.declared.finding.Finding.TheVariants as found;
ghost use Rattle.races.specs.declared.observed_event.ObservedEvent.{ObservedEvent as RunEvent};
ghost use Rattle.races.specs.declared.observed_event.ObservedEvent.TheVariants.{Access as Accessed};

use crate::finding::Finding;
use crate::freed_access::FreedAccess;
use crate::freed_recorder::FreedRecorder;
use crate::lock_order::LockOrder;
use crate::misuse::Misuse;
use crate::misuse_recorder::MisuseRecorder;
use crate::observed_event::ObservedEvent;
use crate::order_fault::OrderFault;
use crate::race::Race;
use crate::recorder::RaceRecorder;
use crate::site::Access;
use std::alloc::{AllocError, Global};

/// Is told the events of a run in the order of its turns, and finds what is wrong in it.
#[derive(Drop)]
pub struct FindingRecorder {
    alloc: Global,
    races: RaceRecorder,
    freed: FreedRecorder,
    order: LockOrder,
    misuse: MisuseRecorder,
    /// Whether an event could not be recorded.
    is_broken: bool,
}

impl FindingRecorder {
    /// A recorder that was told nothing.
    ///
    /// # Errors
    ///
    /// Only out of memory.
    pub fn new(alloc: Global) -> Result<Self, AllocError>
        ensures { IfOk result (λ recorder. FindingRecords recorder []) }
    {
        Ok(FindingRecorder {
            alloc,
            races: RaceRecorder::new(alloc)?,
            freed: FreedRecorder::new(alloc)?,
            order: LockOrder::new(alloc)?,
            misuse: MisuseRecorder::new(alloc)?,
            is_broken: false,
        })
    }

    /// Records an event.
    ///
    /// # Errors
    ///
    /// Out of memory. Then the recorder is broken, and answers no findings.
    pub fn record(&mut self, event: &ObservedEvent) -> Result<(), AllocError>
        ensures recorded { OnOk result
            ((history : List RunEvent) → FindingRecords self.old history → FindingRecords self.new (history ++ event.now ∷ [])) }
        ensures broken { OnErr result (self.new.is_broken ≡ true) }
        ensures stays { self.old.is_broken ≡ true → self.new.is_broken ≡ true }
    {
        let recorded = self.tell(event);
        if recorded.is_err() {
            self.is_broken = true;
        }
        recorded
    }

    /// Records an access. It says the same as `record` of the event of this access, and is the short way to it.
    ///
    /// # Errors
    ///
    /// As `record`.
    #[inline(always)]
    pub fn record_access(&mut self, access: &Access) -> Result<(), AllocError>
        ensures recorded { OnOk result
            ((history : List RunEvent) → FindingRecords self.old history → FindingRecords self.new (history ++ Accessed access.now ∷ [])) }
        ensures broken { OnErr result (self.new.is_broken ≡ true) }
        ensures stays { self.old.is_broken ≡ true → self.new.is_broken ≡ true }
    {
        let recorded = self.tell_access(access);
        if recorded.is_err() {
            self.is_broken = true;
        }
        recorded
    }

    /// What is found in the events that were told, in the order in which the last event of each came.
    ///
    /// # Errors
    ///
    /// Out of memory, or the recorder is broken.
    pub fn findings(&self) -> Result<Vec<Finding>, AllocError>
        ensures found { IfOk result (λ findings.
            (history : List RunEvent) → FindingRecords self.now history → AreFindings history findings.items) }
        ensures whole { OnOk result (self.now.is_broken ≡ false) }
    {
        if self.is_broken {
            return Err(AllocError);
        }
        let races = self.races.races()?;
        let freed = self.freed.found()?;
        let faults = self.order.found()?;
        let misuses = self.misuse.found()?;
        let mut findings = all_of(self.alloc, &races, &freed, &faults, &misuses)?;
        findings.sort_by_key(|finding| finding.time())?;
        Ok(findings)
    }

    /// Tells an event to each part.
    fn tell(&mut self, event: &ObservedEvent) -> Result<(), AllocError>
        ensures recorded { OnOk result (FindingRecordsMore self.old event.now self.new) }
        ensures broken { self.new.is_broken ≡ self.old.is_broken }
    {
        self.races.record(event)?;
        self.freed.record(event)?;
        self.order.record(event)?;
        self.misuse.record(event)
    }

    /// Tells an access to each part that looks at accesses.
    #[inline(always)]
    fn tell_access(&mut self, access: &Access) -> Result<(), AllocError>
        ensures recorded { OnOk result (FindingRecordsMore self.old (Accessed access.now) self.new) }
        ensures broken { self.new.is_broken ≡ self.old.is_broken }
    {
        self.races.record_access(access)?;
        self.freed.record_access(access)
    }
}

/// All findings, by their kinds.
fn all_of(
    alloc: Global,
    races: &[Race],
    freed: &[FreedAccess],
    faults: &[OrderFault],
    misuses: &[Misuse],
) -> Result<Vec<Finding>, AllocError>
    ensures { IfOk result (λ findings. findings.items ≡ found_in races.now freed.now faults.now misuses.now) }
{
    let mut findings = Vec::new(alloc);
    add_races(&mut findings, races)?;
    add_freed(&mut findings, freed)?;
    add_faults(&mut findings, faults)?;
    add_misuses(&mut findings, misuses)?;
    Ok(findings)
}

/// Appends races.
fn add_races(findings: &mut Vec<Finding>, races: &[Race]) -> Result<(), AllocError>
    ensures { OnOk result (findings.new.items ≡ findings.old.items ++ map found.Race races.now) }
{
    for race in races {
        findings.push(Finding::Race(*race))?;
    }
    Ok(())
}

/// Appends accesses of dead bytes.
fn add_freed(findings: &mut Vec<Finding>, freed: &[FreedAccess]) -> Result<(), AllocError>
    ensures { OnOk result (findings.new.items ≡ findings.old.items ++ map found.Freed freed.now) }
{
    for access in freed {
        findings.push(Finding::Freed(*access))?;
    }
    Ok(())
}

/// Appends faults of the order of locks.
fn add_faults(findings: &mut Vec<Finding>, faults: &[OrderFault]) -> Result<(), AllocError>
    ensures { OnOk result (findings.new.items ≡ findings.old.items ++ map found.Order faults.now) }
{
    for fault in faults {
        findings.push(Finding::Order(*fault))?;
    }
    Ok(())
}

/// Appends misuses.
fn add_misuses(findings: &mut Vec<Finding>, misuses: &[Misuse]) -> Result<(), AllocError>
    ensures { OnOk result (findings.new.items ≡ findings.old.items ++ map found.Misuse misuses.now) }
{
    for misuse in misuses {
        findings.push(Finding::Misuse(*misuse))?;
    }
    Ok(())
}
