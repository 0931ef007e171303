//! The acquisitions of locks while others are held, and the faults that they make.
ghost use Rattle.std.specs.Prelude.{◌≡◌, List, [], ◌∷◌, ◌++◌, OnOk, fold, map};
ghost use Rattle.std.specs.List.{list_any};
ghost use Rattle.races.specs.Firsts.{with_new};
ghost use Rattle.races.specs.LockOrder.{Acquired, KnowsCrossings, are_alike, faults_at, is_same_pair, told};

use crate::acquisition::Acquisition;
use crate::order_fault::OrderFault;
use std::alloc::{AllocError, Global};

/// The acquisitions of locks while others are held, and the faults that they make.
///
/// Of acquisitions of one lock by one thread with the same held locks the first is kept. An acquisition is held against all that are
/// kept, so it takes time in proportion to their number and to the locks that they hold.
#[derive(Drop)]
pub(crate) struct Crossings {
    kept: Vec<Acquisition>,
    faults: Vec<OrderFault>,
}

impl Crossings {
    /// No acquisition.
    pub(crate) fn new(alloc: Global) -> Self
        ensures { KnowsCrossings result [] }
    {
        Crossings {
            kept: Vec::new(alloc),
            faults: Vec::new(alloc),
        }
    }

    /// One more acquisition.
    pub(crate) fn add(&mut self, own: Acquisition) -> Result<(), AllocError>
        ensures { OnOk result
            ((acquired : List Acquired) → KnowsCrossings self.old acquired → KnowsCrossings self.new (acquired ++ told own ∷ [])) }
    {
        find_faults(&mut self.faults, &self.kept, &own)?;
        self.keep(own)
    }

    /// Keeps an acquisition, if none like it is kept.
    fn keep(&mut self, own: Acquisition) -> Result<(), AllocError>
        ensures kept { OnOk result (map told self.new.kept.items ≡ with_new are_alike (map told self.old.kept.items) (told own)) }
        ensures faults { self.new.faults.items ≡ self.old.faults.items }
    {
        if self.is_known(&own) {
            return Ok(());
        }
        self.kept.push(own)?;
        Ok(())
    }

    /// Whether an acquisition like this one is kept.
    fn is_known(&self, own: &Acquisition) -> bool
        ensures { result ≡ list_any (λ one. are_alike (told own.now) (told one)) self.now.kept.items }
    {
        self.kept.iter().any(|one| own.is_alike(one))
    }

    /// The faults.
    pub(crate) fn faults(&self) -> &[OrderFault]
        ensures { result.now ≡ self.now.faults.items }
    {
        &self.faults
    }
}

/// Notes the faults of an acquisition with those that are kept.
fn find_faults(
    faults: &mut Vec<OrderFault>,
    kept: &[Acquisition],
    own: &Acquisition,
) -> Result<(), AllocError>
    ensures { OnOk result
        (faults.new.items ≡ fold (with_new is_same_pair) faults.old.items (faults_at (map told kept.now) (told own.now))) }
{
    for one in kept {
        if one.is_crossed(own) {
            note(faults, one.fault_with(own))?;
        }
    }
    Ok(())
}

/// Notes a fault, if none of the same two locks was noted.
fn note(faults: &mut Vec<OrderFault>, fault: OrderFault) -> Result<(), AllocError>
    ensures { OnOk result (faults.new.items ≡ with_new is_same_pair faults.old.items fault) }
{
    if !is_noted(faults, &fault) {
        faults.push(fault)?;
    }
    Ok(())
}

/// Whether a fault of the same two locks was noted.
fn is_noted(faults: &[OrderFault], fault: &OrderFault) -> bool
    ensures { result ≡ list_any (is_same_pair fault.now) faults.now }
{
    faults.iter().any(|one| fault.is_same_pair(one))
}
