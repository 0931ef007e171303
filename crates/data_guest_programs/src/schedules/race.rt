//! Schedules for the run `race`: thread 0 keeps the token through phase 1, three threads run in phase 2, and thread 0 ends the run alone.

use crate::RACE;
use crate::schedules::schedule::Schedule;

/// The first phase, by worker 0.
pub const FIRST_PHASE: &str = "\
draw 0
step 0
step 0
step 0
post 0
turn
hold
hold
hold
turn
hold
hold
turn
hold
hold
turn
";

/// The last two phases, by worker 0.
const LAST_PHASES: &str = "\
draw 0
step 0
step 0
post 0
turn
draw 0
step 0
step 0
step 0
step 0
post 0
turn
";

/// Phase 2 by workers 0, 1 and 2 in turn, the highest first, and all turns at the end.
const MIXED_PHASE: &str = "\
draw 0
draw 1
draw 2
step 2
step 1
step 0
step 2
step 1
step 0
step 2
step 1
step 0
step 2
step 1
post 2
post 1
post 0
turn
turn
turn
";

/// Phase 2 with the turn of thread 0 beside the half-run job of thread 1.
const EARLY_PHASE: &str = "\
draw 0
draw 1
step 1
step 1
step 0
step 0
step 0
post 0
turn
step 1
step 1
post 1
turn
draw 0
step 0
step 0
step 0
step 0
post 0
turn
";

/// Three threads whose instructions are mixed.
pub const THREE_WORKERS: Schedule = Schedule {
    name: "race-three-workers",
    program: RACE,
    text: &[FIRST_PHASE, MIXED_PHASE, LAST_PHASES],
};

/// A turn beside a half-run job.
pub const EARLY_TURN: Schedule = Schedule {
    name: "race-early-turn",
    program: RACE,
    text: &[FIRST_PHASE, EARLY_PHASE, LAST_PHASES],
};
