//! The trait of what is told of each turn and its patch.
ghost use Rattle.std.specs.Prelude.{◌≡◌, ◌++◌, [], ◌∷◌, List, ℕ, option_map, OnOk, IfErr};
ghost use Rattle.token.specs.Change.{Change, addresses_by, change_by};
ghost use Rattle.token.specs.declared.turn.Turn.{Turn as TurnRecord};

use crate::turn::Turn;
use crate::turn_fault::TurnFault;
use commit::Patch;

/// What is told of each turn of a run.
///
/// A turn is recorded in two steps. Before it is done the recorder is told what its thread changed, and takes
/// all that it needs for it. Once it is done the recorder is told its record, and can't fail. So where a
/// recorder fails nothing of the turn was done, and a turn that isn't done isn't recorded.
pub trait Recorder {
    /// It has recorded these turns and what each changed, the first one first.
    ghost records: { Self → List TurnRecord → List Change → Type 0 };

    /// It is prepared for a turn that changed the bytes at these addresses.
    ghost is_ready: { Self → List ℕ → Type 0 };

    /// It writes, so that a write may fail.
    ghost writes: { Type 0 };

    /// Prepares for a turn with this patch, or with none at a wake. Nothing more is recorded.
    fn prepare(&mut self, patch: Option<&Patch>) -> Result<(), TurnFault>
        ensures ready { OnOk result (is_ready self.new (addresses_by (option_map (λ patch. patch.now) patch.entry))) }
        ensures kept { (turns : List TurnRecord) (changes : List Change) → records self.old turns changes → records self.new turns changes }
        ensures fault { IfErr result (λ fault. fault ≡ TurnFault.WriteFailed → writes) };

    /// Records the turn that it is prepared for.
    fn record(&mut self, turn: Turn)
        requires { (addresses : List ℕ) × is_ready self.old addresses }
        ensures { (addresses : List ℕ) (turns : List TurnRecord) (changes : List Change) → is_ready self.old addresses →
            records self.old turns changes → records self.new (turns ++ turn ∷ []) (changes ++ change_by turn addresses ∷ []) };
}
