//! Finds in what a phase that a number shuffles differs from the same phase without the number.
ghost use Rattle.std.specs.Prelude.{◌≡◌, Some, true, IfOk};
ghost use Rattle.explored_runs.specs.Runs.{setup_by};
ghost use Rattle.shuffled_phases.specs.Config.{is_valid};
ghost use Rattle.small_schedules.specs.Differences.{DiffersAt, IsDifference};
ghost use Rattle.small_schedules.specs.Walks.{IsShared};
ghost use Rattle.token.specs.RunInTurn.{point_of};

use crate::phase_difference::PhaseDifference;
use crate::walking::{first_shared, go_to, stands};
use elf32_reader::Image;
use explored_runs::open_shuffled;
use runtime::{Config, NoRecord};
use shuffled_phases::{Shuffle, fill_list};
use std::alloc::{AllocError, Global};
use std::sync::Wait;
use thread_table::ThreadNumbers;
use token::{Serial, one_history};

/// The run of a schedule, of which no turn is done.
fn open(
    alloc: Global,
    image: &Image,
    input: &[u8],
    config: &Config,
    shuffle: Shuffle,
) -> Result<Serial<NoRecord>, AllocError>
    requires { is_valid config.now ≡ true }
    ensures setup { IfOk result (λ serial. (point_of serial).setup ≡ setup_by image.now input.now config.now shuffle) }
    ensures phase { IfOk result (λ serial. (point_of serial).phase ≡ 1) }
{
    let serial = open_shuffled(alloc, image, input, config, shuffle)?.recorded_by(NoRecord);
    stands(&serial);
    Ok(serial)
}

/// The number of the first phase of the run of a schedule in which more than one thread has a turn, or of the one in which the run ends if
/// there is none.
pub(crate) fn first_shared_phase<R: Wait>(
    rt: &R,
    alloc: Global,
    image: &Image,
    input: &[u8],
    config: &Config,
    shuffle: Shuffle,
) -> Result<u64, AllocError>
    requires { is_valid config.now ≡ true }
    ensures { IfOk result (IsShared (setup_by image.now input.now config.now shuffle)) }
{
    let mut serial = open(alloc, image, input, config, shuffle)?;
    first_shared(rt, &mut serial)
}

/// In what the last phase differs that a schedule shuffles. None if it shuffles none, or if the run ends before the phase.
pub(crate) fn difference_of<R: Wait>(
    rt: &R,
    alloc: Global,
    image: &Image,
    input: &[u8],
    config: &Config,
    shuffle: Shuffle,
) -> Result<Option<PhaseDifference>, AllocError>
    requires { is_valid config.now ≡ true }
    ensures { IfOk result (IsDifference (setup_by image.now input.now config.now shuffle) shuffle.last) }
{
    if shuffle.last == 0 {
        return Ok(None);
    }
    let mut serial = open(alloc, image, input, config, shuffle)?;
    if go_to(rt, &mut serial, shuffle.last)? {
        Ok(Some(difference_at(&serial, shuffle)))
    } else {
        Ok(None)
    }
}

/// In what the present phase differs of a run of a schedule.
fn difference_at(serial: &Serial<NoRecord>, shuffle: Shuffle) -> PhaseDifference
    requires { (point_of serial.now).setup.shuffle ≡ Some shuffle }
    ensures { DiffersAt (point_of serial.now).setup (point_of serial.now).phase result }
{
    one_history();
    stands(serial);
    let phase = serial.phase();
    let mut drawn = ThreadNumbers::new();
    fill_list(Some(shuffle), phase, serial.base_threads(), &mut drawn);
    let mut plain = ThreadNumbers::new();
    fill_list(None, phase, serial.base_threads(), &mut plain);
    PhaseDifference {
        phase,
        drawn,
        plain,
    }
}
