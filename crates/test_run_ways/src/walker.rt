//! Picks events until a world's run has ended.
use crate::dice::Dice;
use anyhow::{Result, anyhow};
use schedule_core::{EventFault, World};
use token::RunOutcome;

/// After how many picks a walk is given up. An event that isn't enabled is a pick too.
const PICKS: u32 = 4_000_000;

/// Makes picked events happen until the run ends, and answers how it ended.
pub fn walk_to_end(world: &mut World, workers: u32, dice: &mut Dice) -> Result<RunOutcome> {
    for _ in 0..PICKS {
        if let Some(outcome) = world.outcome() {
            return Ok(outcome);
        }
        match world.apply(dice.event(workers)) {
            Ok(()) | Err(EventFault::NotEnabled) => {}
            Err(fault) => return Err(fault.into()),
        }
    }
    Err(anyhow!("a walk without an end"))
}
