//! What is found in a run.
ghost use Rattle.std.specs.Prelude.{◌≡◌};
ghost use Rattle.races.specs.Findings.{moment, time_of};

use crate::freed_access::FreedAccess;
use crate::misuse::Misuse;
use crate::order_fault::OrderFault;
use crate::race::Race;

/// What is found in a run.
#[derive(Clone, Copy, Debug, PartialEq, Eq)]
pub enum Finding {
    /// Two accesses race.
    Race(Race),
    /// Dead bytes are accessed.
    Freed(FreedAccess),
    /// Two threads take two locks in both orders.
    Order(OrderFault),
    /// An object is misused.
    Misuse(Misuse),
}

impl Finding {
    /// When the last of its events came: the turn in the upper 64 bits, and in the lower ones how many instructions its thread executed in
    /// the turn before.
    pub fn time(&self) -> u128
        ensures { result ≡ time_of self.now }
    {
        match self {
            Finding::Race(race) => moment(race.second.turn, race.second.instruction),
            Finding::Freed(freed) => moment(freed.site.turn, freed.site.instruction),
            Finding::Order(fault) => moment(fault.second.turn, fault.second.instruction),
            Finding::Misuse(misuse) => moment(misuse.call.turn, misuse.call.instruction),
        }
    }
}

/// The time of an instruction of a turn.
fn moment(turn: u64, instruction: u64) -> u128
    ensures { result ≡ moment turn instruction }
{
    u128::from(turn) * (1 << 64) + u128::from(instruction)
}
