//! Which text couldn't be written as the turns were done.
ghost use Rattle.std.specs.Prelude.{◌≡◌};
ghost use Rattle.command_run.specs.Recording as spec;

use crate::item::Item;
use command_requests::Destination;
use std::io::Write;

/// The destination of the text that couldn't be written, if a recorder of one of these said that a write failed: of the first that says
/// that it has failed, and else of the first that writes as the turns are done.
pub(crate) fn unwritten_destination<'a, O: Write>(items: &[Item<'a, O>]) -> Option<Destination<'a>>
    ensures { result ≡ spec.unwritten items.now }
{
    match failed(items) {
        Some(destination) => Some(destination),
        None => writing(items),
    }
}

/// The destination of the first that says that it has failed.
fn failed<'a, O: Write>(items: &[Item<'a, O>]) -> Option<Destination<'a>>
    ensures { result ≡ spec.failed_in items.now }
{
    let [first, others @ ..] = items else {
        return None;
    };
    if first.recording.has_failed() {
        return Some(first.destination);
    }
    failed(others)
}

/// The destination of the first that writes as the turns are done.
fn writing<'a, O: Write>(items: &[Item<'a, O>]) -> Option<Destination<'a>>
    ensures { result ≡ spec.writing_in items.now }
{
    let [first, others @ ..] = items else {
        return None;
    };
    if first.recording.writes_meanwhile() {
        return Some(first.destination);
    }
    writing(others)
}
