//! Events told to a recorder of findings.
ghost use Rattle.std.specs.Prelude.{OnOk};
ghost use Rattle.observed_run.specs.Events.{listed};
ghost use Rattle.observed_run.specs.Told.{IsTold};

use races::{FindingRecorder, ObservedEvent};
use std::alloc::AllocError;

/// Tells an event, if there is one.
#[inline(always)]
pub(crate) fn tell(
    recorder: &mut FindingRecorder,
    event: Option<ObservedEvent>,
) -> Result<(), AllocError>
    ensures { OnOk result (IsTold recorder.old recorder.new (listed event)) }
{
    match event {
        Some(event) => recorder.record(&event),
        None => Ok(()),
    }
}

/// Tells some events, one after another.
pub(crate) fn tell_all(
    recorder: &mut FindingRecorder,
    events: &[ObservedEvent],
) -> Result<(), AllocError>
    ensures { OnOk result (IsTold recorder.old recorder.new events.now) }
{
    for event in events {
        recorder.record(event)?;
    }
    Ok(())
}
