//! What a store that stands for a state says of its image, as contracts.
ghost use Rattle.std.specs.Prelude.{◌≡◌, ℕ, List, false};
ghost use Rattle.spb_defs.specs.State.{State};
ghost use Rattle.redo_journal.specs.Redo.{has_open_gate};
ghost use Rattle.store_check.specs.Stands.{Stands};
ghost use Rattle.open_store.specs.Store.{IsStored};

/// An image that holds a state stands for it, and one with a closed gate holds the state that it stands for. The call
/// does nothing.
pub fn stored_is_standing()
    ensures stands { (image : List ℕ) (s : State) → IsStored image s → Stands image s }
    ensures stored { (image : List ℕ) (s : State) → Stands image s → has_open_gate image ≡ false → IsStored image s }
{}
