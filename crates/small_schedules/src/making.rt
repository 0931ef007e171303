//! The call `make_small`: a file, its input and a number go in, a small schedule by which the run fails comes out.
ghost use Rattle.small_schedules.specs.Small.{MakesSmall};

use crate::differing::{difference_of, first_shared_phase};
use crate::run_trial::RunTrial;
use crate::settling::small_of;
use crate::small::Small;
use explored_runs::{fails, run_shuffled, whole};
use runtime::{Config, OpenFault, open_image};
use std::alloc::Global;
use std::sync::Wait;
use std::thread::Threads;

/// Makes a small schedule of a number by which the run of a file on an input fails: with the same outcome, and that was seen. None if the
/// run of the number doesn't fail. The configuration's own schedule and its workers aren't looked at. Each run is made on the calling host
/// thread, some 100 of them at most.
pub fn make_small<R: Threads + Wait + Sync>(
    rt: &R,
    alloc: Global,
    elf: &[u8],
    input: &[u8],
    config: &Config,
    number: u32,
) -> Result<Option<Small>, OpenFault>
    ensures { MakesSmall elf.now input.now config.now number result }
{
    let image = open_image(alloc, elf, input, config)?;
    let all = whole(number);
    let end = run_shuffled(rt, alloc, &image, input, config, all)?;
    if !fails(end.outcome) {
        return Ok(None);
    }
    let from = first_shared_phase(rt, alloc, &image, input, config, all)?;
    let trial = RunTrial {
        alloc,
        image: &image,
        input,
        config,
        outcome: end.outcome,
    };
    let shuffle = small_of(rt, &trial, all, from)?;
    let difference = difference_of(rt, alloc, &image, input, config, shuffle)?;
    Ok(Some(Small {
        shuffle,
        difference,
    }))
}
