//! Schedules for woken and keeping threads, and for the end of a run.

use crate::schedules::race::FIRST_PHASE;
use crate::schedules::schedule::Schedule;
use crate::{COUNTER, ENDLESS};

/// A thread is woken.
pub const SIGNAL: Schedule = Schedule {
    name: "a signal",
    program: crate::SIGNAL,
    text: &[
        "draw 0\nstep 0\nstep 0\nstep 0\nstep 0\npost 0\nturn\ndraw 0\ndraw 1\nstep 1\nstep 0\nstep 1\nstep 0\npost 1\npost 0\nturn\nturn\nhold\nhold\nhold\nturn\ndraw 1\nstep 1\nstep 1\npost 1\nturn\ndraw 0\nstep 0\nstep 0\nstep 0\npost 0\nturn\nturn\nhold\nhold\nturn\ndraw 0\nstep 0\nstep 0\npost 0\nturn\ndraw 1\nstep 1\nstep 1\npost 1\nturn\n",
    ],
};

/// A job is skipped, since a lower one ends the run.
pub const SKIP: Schedule = Schedule {
    name: "a skip",
    program: ENDLESS,
    text: &[
        "draw 0\nstep 0\nstep 0\nstep 0\nstep 0\npost 0\nturn\ndraw 0\ndraw 1\nstep 1\nstep 0\nstep 0\nstep 0\nnote 0\nskip 1\npost 0\nturn\n",
    ],
};

/// A thread that keeps the token stores, and passes the token on.
pub const KEPT_STORE: Schedule = Schedule {
    name: "a store of a thread that keeps the token",
    program: COUNTER,
    text: &[
        FIRST_PHASE,
        "draw 0\nstep 0\nstep 0\nstep 0\npost 0\nturn\ndraw 0\nstep 0\nstep 0\nstep 0\nstep 0\nstep 0\npost 0\nturn\nhold\nhold\nhold\nhold\nhold\nturn\n",
    ],
};
