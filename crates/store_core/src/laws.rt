//! What the answers of an opening exclude, as a contract.
ghost use Rattle.std.specs.Prelude.{ℕ, List};
ghost use Rattle.page_laws.specs.declared.rule.Rule.{Rule};
ghost use Rattle.store_check.specs.declared.profile.Profile.{Profile};
ghost use Rattle.store_check.specs.Stands.{IsNoStore};
ghost use Rattle.store_check.specs.Damage.{Breaks};
ghost use Rattle.store_core.specs.Opening.{IsStarted, IsFirstRule};
ghost use Rattle.store_core.specs.Finish.{IsLastRule};

/// A file that opens is a store, and breaks none of the rules that an opening tests before the trees and the
/// slots are read. So an opening that isn't kept from its answer by a fault or want of memory has one answer.
/// The call does nothing.
pub fn started_is_not_refused()
    ensures store { (old new : List ℕ) (profile : Profile) (pivots : List (List ℕ)) → IsStarted old new profile pivots → IsNoStore old → ⊥ }
    ensures sound { (old new : List ℕ) (profile : Profile) (pivots : List (List ℕ)) → IsStarted old new profile pivots
        → (page : ℕ) (broken : Rule) → IsFirstRule broken → Breaks old page broken → ⊥ }
{}

/// A rule of the trees or the slots that the image breaks after the first half of an opening, the image before it
/// broke too, on the same page. So what the second half answers is said of the file as it was. The call does nothing.
pub fn started_breaks_alike()
    ensures { (old new : List ℕ) (profile : Profile) (pivots : List (List ℕ)) → IsStarted old new profile pivots
        → (page : ℕ) (broken : Rule) → IsLastRule broken → Breaks new page broken → Breaks old page broken }
{}
