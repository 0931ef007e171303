//! The texts of a run, begun before its first turn.
ghost use Rattle.std.specs.Prelude.{◌≡◌, [], IfErr, IfOk};
ghost use Rattle.command_requests.specs.Destination.{KeepsBut};
ghost use Rattle.command_run.specs.Recording.{AreTold, wanted_by};
ghost use Rattle.command_run.specs.Texts.{IsUnbegun, destinations};

use crate::abandoning::abandon;
use crate::item::{Item, begin_item};
use command_requests::{Failure, RequestedText};
use output_files::Files;
use std::alloc::Global;

/// Begins the texts that are wanted. If one can't be begun none is left.
pub(crate) fn begin<'a, F: Files>(
    alloc: Global,
    wanted: &[RequestedText<'a>],
    files: &mut F,
) -> Result<Vec<Item<'a, F::Output>>, Failure<'a>>
    ensures wanted { IfOk result (λ items. wanted_by items.items ≡ wanted.now) }
    ensures told { IfOk result (λ items. AreTold F.Output.contents items.items [] []) }
    ensures kept { KeepsBut [] (destinations wanted.now) (F.content files.old) (F.content files.new) }
    ensures unnamed { wanted.now ≡ [] → files.new ≡ files.old }
    ensures failed { IfErr result (IsUnbegun wanted.now) }
{
    let mut items = Vec::with_capacity(alloc, wanted.len())?;
    for one in wanted {
        match begin_item(alloc, *one, files) {
            Ok(item) => items.push_reserved(item),
            Err(failure) => {
                abandon(items, files);
                return Err(failure);
            }
        }
    }
    Ok(items)
}
