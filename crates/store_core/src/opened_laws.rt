//! What the second half of an opening is over, and what its answers say of the states that the image stands for,
//! as contracts.
ghost use Rattle.std.specs.Prelude.{◌≡◌, ℕ, List};
ghost use Rattle.spb_defs.specs.State.{State};
ghost use Rattle.page_laws.specs.declared.rule.Rule.{Rule};
ghost use Rattle.store_check.specs.declared.profile.Profile.{Profile};
ghost use Rattle.store_check.specs.Stands.{Stands};
ghost use Rattle.open_store.specs.Store.{IsStored};
ghost use Rattle.store_core.specs.declared.errors.OpenError.TheVariants as refusal;
ghost use Rattle.store_core.specs.Opening.{IsStarted};
ghost use Rattle.store_core.specs.Finish.{IsOpened, RefusesOpened};

use store_check::{breaks_refute, one_state};

/// The first half of an opening leaves an image that the second half reads. The call does nothing.
pub fn started_is_opened()
    ensures { (old new : List ℕ) (profile : Profile) (pivots : List (List ℕ)) → IsStarted old new profile pivots → IsOpened new profile pivots }
{}

/// A store is opened in the one state that the image stands for, and an image that is damaged stands for none. The
/// call does nothing.
pub fn opened_or_damaged()
    ensures stands { (image : List ℕ) (s : State) → IsStored image s → Stands image s }
    ensures only { (image : List ℕ) (s t : State) → IsStored image s → Stands image t → t ≡ s }
    ensures damaged { (image : List ℕ) (n : ℕ) (broken : Rule) (s : State) → RefusesOpened (refusal.Damaged n broken) image → Stands image s → ⊥ }
{
    one_state();
    breaks_refute();
}
