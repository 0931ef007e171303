//! The texts of a run under way, as one recorder.
ghost use Rattle.std.specs.Prelude.{◌≡◌, ◌++◌, ◌∷◌, [], ℕ, List, IfErr, OnOk, option_map};
ghost use Rattle.command_run.specs.Recording.{AreReadyFor, AreTold, HasWriting, wanted_by};
ghost use Rattle.command_run.specs.declared.item.Item.{Item as ItemRecord};
ghost use Rattle.command_requests.specs.declared.requested_text.RequestedText.{RequestedText as WantedText};
ghost use Rattle.token.specs.Change.{Change, addresses_by, change_by};
ghost use Rattle.token.specs.declared.turn.Turn.{Turn as TurnRecord};

use crate::item::Item;
use commit::Patch;
use std::io::Write;
use std::marker::{Brand, Model, PhantomData};
use token::{Recorder, Turn, TurnFault};

/// Which texts are wanted, fixed by type for a whole run, so that it is known at its end as at its start.
pub(crate) trait AreWanted {
    ghost wanted: { List WantedText };
}

impl AreWanted for Brand {
    ghost use Rattle.std.specs.Prelude.{[]};

    ghost wanted = { [] };
}

/// The texts of a run under way, in the order in which they are put where they are to be.
pub(crate) struct Items<'a, B: AreWanted, O> {
    items: Vec<Item<'a, O>>,
    wanted_by: PhantomData<B>,
}

impl<'a, B: AreWanted, O> Model for Items<'a, B, O> {
    ghost use Rattle.std.specs.Prelude.{◌≡◌, List};
    ghost use Rattle.std.specs.Coded.{codes};
    ghost use Rattle.sharing_report.specs.contracts.sharing_recorder.SharingRecorder as sharing;
    ghost use Rattle.command_run.specs.Recording.{wanted_by as texts_of};
    ghost use Rattle.command_run.specs.declared.item.Item.{Item as ItemRecord};

    ghost Value = { List (ItemRecord O) };

    ghost coded = { Prim.hlevel (codes, sharing.the_row.coded) };

    ghost view = { λ items. items.items.items };

    ghost invariant = { λ items. texts_of items.items.items ≡ B.wanted };
}

impl<'a, B: AreWanted, O: Write> Items<'a, B, O> {
    /// These texts as one recorder.
    pub(crate) fn new(items: Vec<Item<'a, O>>) -> Self
        requires { wanted_by items.items ≡ B.wanted }
        ensures { result ≡ items.entry.items }
    {
        Items {
            items,
            wanted_by: PhantomData,
        }
    }

    /// The texts.
    pub(crate) fn into_items(self) -> Vec<Item<'a, O>>
        ensures items { result.items ≡ self.entry }
        ensures wanted { wanted_by result.items ≡ B.wanted }
    {
        let Items {
            items,
            wanted_by: _wanted_by,
        } = self;
        items
    }
}

impl<B: AreWanted, O: Write> Recorder for Items<'_, B, O> {
    ghost records = { λ items turns changes. AreTold O.contents items turns changes };

    ghost is_ready = { λ items addresses. AreReadyFor items addresses };

    ghost writes = { HasWriting B.wanted };

    fn prepare(&mut self, patch: Option<&Patch>) -> Result<(), TurnFault> {
        prepare_all(&mut self.items, patch)
    }

    fn record(&mut self, turn: Turn) {
        record_all(&mut self.items, turn);
    }
}

/// Prepares each text for a turn with this patch.
fn prepare_all<O: Write>(items: &mut [Item<'_, O>], patch: Option<&Patch>) -> Result<(), TurnFault>
    ensures same { wanted_by items.new ≡ wanted_by items.old }
    ensures ready { OnOk result (AreReadyFor items.new (addresses_by (option_map (λ patch. patch.now) patch.entry))) }
    ensures kept { (turns : List TurnRecord) (changes : List Change) →
        AreTold O.contents items.old turns changes → AreTold O.contents items.new turns changes }
    ensures fault { IfErr result (λ fault. fault ≡ TurnFault.WriteFailed → HasWriting (wanted_by items.old)) }
{
    for item in items.iter_mut() {
        item.prepare(patch)?;
    }
    Ok(())
}

/// Tells each text the turn that it is prepared for.
fn record_all<O: Write>(items: &mut [Item<'_, O>], turn: Turn)
    requires { (addresses : List ℕ) × AreReadyFor items.old addresses }
    ensures same { wanted_by items.new ≡ wanted_by items.old }
    ensures told { (addresses : List ℕ) (turns : List TurnRecord) (changes : List Change) → AreReadyFor items.old addresses →
        AreTold O.contents items.old turns changes →
        AreTold O.contents items.new (turns ++ turn ∷ []) (changes ++ change_by turn addresses ∷ []) }
{
    for item in items.iter_mut() {
        item.record(turn);
    }
}
