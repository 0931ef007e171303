//! The texts of a run that has no answer, taken away.
ghost use Rattle.std.specs.Prelude.{◌≡◌, []};
ghost use Rattle.std.specs.Vec.Iter.{into_iter_items, into_iter_len};
ghost use Rattle.command_requests.specs.Destination.{KeepsBut};
ghost use Rattle.command_run.specs.Recording.{wanted_by};
ghost use Rattle.command_run.specs.Texts.{destinations};

use crate::item::{Item, abandon_item};
use output_files::Files;
use std::vec::IntoIter;

/// Takes away what was begun for texts.
pub(crate) fn abandon<F: Files>(items: Vec<Item<'_, F::Output>>, files: &mut F)
    ensures kept { KeepsBut [] (destinations (wanted_by items.entry.items)) (F.content files.old) (F.content files.new) }
    ensures unnamed { items.entry.items ≡ [] → files.new ≡ files.old }
{
    let mut rest = items.into_iter();
    abandon_rest(&mut rest, files);
    rest.destroy_empty();
}

/// Takes away what was begun for the texts that are left.
pub(crate) fn abandon_rest<F: Files>(rest: &mut IntoIter<Item<'_, F::Output>>, files: &mut F)
    ensures empty { into_iter_len rest.new ≡ 0 }
    ensures kept { KeepsBut [] (destinations (wanted_by (into_iter_items rest.old))) (F.content files.old) (F.content files.new) }
    ensures unnamed { into_iter_items rest.old ≡ [] → files.new ≡ files.old }
{
    let Some(item) = rest.next() else {
        return;
    };
    abandon_item(item, files);
    abandon_rest(rest, files);
}
