//! The texts of a run that ended, put where they are to be.
ghost use Rattle.std.specs.Prelude.{◌≡◌, ◌≤◌, List, [], length};
ghost use Rattle.std.specs.Vec.Iter.{into_iter_items, into_iter_len};
ghost use Rattle.abi.specs.Limits as limit;
ghost use Rattle.output_files.specs.Content.{Tells};
ghost use Rattle.command_run.specs.Recording.{AreTold, wanted_by};
ghost use Rattle.command_requests.specs.Destination.{KeepsBut};
ghost use Rattle.command_run.specs.Texts.{ComesOut, destinations, left_by};
ghost use Rattle.token.specs.Change.{Change};
ghost use Rattle.sharing_report.specs.Recording.{AreInOrder};
ghost use Rattle.token.specs.declared.turn.Turn.{Turn as TurnRecord};

use crate::abandoning::abandon_rest;
use crate::ended_run::EndedRun;
use crate::item::{Item, finish_item};
use command_requests::Failure;
use output_files::Files;
use std::alloc::Global;
use std::io::Write;
use std::vec::IntoIter;

/// Puts the texts of a run that ended so where they are to be, in their order. After a failure nothing more is written.
pub(crate) fn finish<'a, F: Files, W: Write>(
    alloc: Global,
    items: Vec<Item<'a, F::Output>>,
    ended: &EndedRun,
    files: &mut F,
    writer: &mut W,
) -> Result<(), Failure<'a>>
    requires { length ended.now.end.threads.items ≤ limit.threads }
    ensures out { (turns : List TurnRecord) (changes : List Change) → AreTold F.Output.contents items.entry.items turns changes
        → AreInOrder changes → ComesOut (Tells F.Output.contents) (wanted_by items.entry.items) (left_by turns changes ended.now)
        (F.content files.old) (F.content files.new) (W.contents writer.old) (W.contents writer.new) result }
    ensures unnamed { items.entry.items ≡ [] → files.new ≡ files.old }
{
    let mut rest = items.into_iter();
    let finished = finish_rest(alloc, &mut rest, ended, files, writer);
    rest.destroy_empty();
    finished
}

/// Puts the texts that are left where they are to be.
fn finish_rest<'a, F: Files, W: Write>(
    alloc: Global,
    rest: &mut IntoIter<Item<'a, F::Output>>,
    ended: &EndedRun,
    files: &mut F,
    writer: &mut W,
) -> Result<(), Failure<'a>>
    requires { length ended.now.end.threads.items ≤ limit.threads }
    ensures empty { into_iter_len rest.new ≡ 0 }
    ensures out { (turns : List TurnRecord) (changes : List Change) → AreTold F.Output.contents (into_iter_items rest.old) turns changes
        → AreInOrder changes → ComesOut (Tells F.Output.contents) (wanted_by (into_iter_items rest.old)) (left_by turns changes ended.now)
        (F.content files.old) (F.content files.new) (W.contents writer.old) (W.contents writer.new) result }
    ensures left { KeepsBut (destinations (wanted_by (into_iter_items rest.old))) [] (F.content files.old) (F.content files.new) }
    ensures unnamed { into_iter_items rest.old ≡ [] → files.new ≡ files.old }
{
    let Some(item) = rest.next() else {
        return Ok(());
    };
    match finish_item(alloc, item, ended, files, writer) {
        Ok(()) => finish_rest(alloc, rest, ended, files, writer),
        Err(failure) => {
            abandon_rest(rest, files);
            Err(failure)
        }
    }
}
