//! What images stand for, and the rules that they break, as contracts.
ghost use Rattle.std.specs.Prelude.{◌≡◌, ◌↔◌, ℕ, List, [], ◌+◌, ◌*◌, ◌<◌, IsTrue, length, All, Some};
ghost use Rattle.metrics_builtin.specs.Space.{IsValid};
ghost use Rattle.page_laws.specs.declared.root.Root.{Root};
ghost use Rattle.page_laws.specs.declared.rule.Rule.{Rule};
ghost use Rattle.page_laws.specs.declared.pages.TheConstants.{PAGE_SIZE};
ghost use Rattle.page_laws.specs.Pages.{are_zero};
ghost use Rattle.redo_journal.specs.declared.layout.TheConstants.{HEADER_PAGE};
ghost use Rattle.redo_journal.specs.Pages.{IsHome};
ghost use Rattle.redo_journal.specs.Redo.{redo_page};
ghost use Rattle.object_file.specs.Slots.{Free, Holds, slot_bytes};
ghost use Rattle.object_file.specs.ObjectFile.{slot_at};
ghost use Rattle.spb_defs.specs.State.{State, IsState, object_at, empty_in_file};
ghost use Rattle.store_check.specs.declared.layout.TheConstants.{MAGIC, LEAST_SIZE};
ghost use Rattle.store_check.specs.declared.profile.Profile.{Profile};
ghost use Rattle.store_check.specs.Layout.{file_pages};
ghost use Rattle.store_check.specs.Profile.{profile_in, IsInRange, no_root};
ghost use Rattle.store_check.specs.Pivots.{pivot_in, HasPivots};
ghost use Rattle.store_check.specs.Stands.{Keeps, Stands, IsNoStore, IsReadable, are_empty, store_magic};
ghost use Rattle.store_check.specs.Damage.{Breaks, HasGoodPivots, HoldsAgain};
ghost use Rattle.store_check.specs.Opened.{state_in};

/// An image stands for at most one state. The call does nothing.
pub fn one_state()
    ensures { (image : List ℕ) (s t : State) → Stands image s → Stands image t → s ≡ t }
{}

/// What holds of every state holds of one that an image stands for. The call does nothing.
pub fn stands_is_state()
    ensures { (image : List ℕ) (s : State) → Stands image s → IsState s }
{}

/// What pages hold is the same in other pages that are alike where a change may replace them. The call does
/// nothing.
pub fn keeps_moved()
    ensures { (home other : ℕ → List ℕ) (s : State) → Keeps home s → ((n : ℕ) → IsHome (file_pages s.cap) n → other n ≡ home n) → Keeps other s }
{}

/// Pages with a profile without trees, the pivots that it counts and free slots hold the state without members.
/// The call does nothing.
pub fn empty_is_kept()
    ensures { (home : ℕ → List ℕ) (profile : Profile) (pivots : List (List ℕ)) → profile_in (home 1) ≡ Some profile → IsTrue (are_empty profile.roots)
        → HasPivots home pivots → length pivots ≡ profile.pivots → All (IsValid profile.space) pivots
        → ((slot : ℕ) → slot < profile.cap → slot_at home slot ≡ Free) → Keeps home (empty_in_file profile.space profile.curve pivots profile.cap) }
{}

/// The members are what the slots hold: a filled slot holds a member, each member is in a slot, and in no other.
/// The call does nothing.
pub fn slots_hold_members()
    ensures filled { (home : ℕ → List ℕ) (s : State) (slot c id : ℕ) (object : List ℕ) → Keeps home s → slot < s.cap → slot_at home slot ≡ Holds c id object
        → object_at s c id ≡ Some object }
    ensures held { (home : ℕ → List ℕ) (s : State) (c id : ℕ) (object : List ℕ) → Keeps home s → object_at s c id ≡ Some object
        → (slot : ℕ) × (slot < s.cap) × (slot_at home slot ≡ Holds c id object) }
    ensures once { (home : ℕ → List ℕ) (s : State) (slot other c id : ℕ) (object another : List ℕ) → Keeps home s → slot < s.cap → other < s.cap
        → slot_at home slot ≡ Holds c id object → slot_at home other ≡ Holds c id another → other ≡ slot }
{}

/// An image that breaks a rule stands for no state. The call does nothing.
pub fn breaks_refute()
    ensures { (image : List ℕ) (page : ℕ) (rule : Rule) (s : State) → Breaks image page rule → Stands image s → ⊥ }
{}

/// An image that is no store stands for no state. The call does nothing.
pub fn no_store_refutes()
    ensures { (image : List ℕ) (s : State) → IsNoStore image → Stands image s → ⊥ }
{}

/// An image that is no store breaks no rule. The call does nothing.
pub fn no_store_breaks_nothing()
    ensures { (image : List ℕ) (page : ℕ) (rule : Rule) → IsNoStore image → Breaks image page rule → ⊥ }
{}

/// What reads as a profile is in its ranges. The call does nothing.
pub fn read_profiles_are_in_range()
    ensures { (page : List ℕ) (profile : Profile) → profile_in page ≡ Some profile → IsInRange profile }
{}

/// A record of pivots reads as no bytes exactly if it is zero. The call does nothing.
pub fn zero_records_are_empty()
    ensures { (page : List ℕ) (place : ℕ) → length page ≡ PAGE_SIZE → place < 4
        → (pivot_in page place ≡ Some []) ↔ IsTrue (are_zero (slot_bytes page place)) }
{}

/// An image that passes each step of an opening stands for the state that its pages read as. The call does
/// nothing.
pub fn sound_images_stand()
    ensures { (image : List ℕ) (profile : Profile) → HasGoodPivots image profile → IsTrue (are_empty profile.roots)
        → ((slot : ℕ) → slot < profile.cap → IsReadable profile.space (slot_at (redo_page image) slot))
        → ((slot : ℕ) → slot < profile.cap → HoldsAgain (slot_at (redo_page image)) slot → ⊥) → Stands image (state_in (redo_page image) profile) }
{}

/// The first bytes of a file are the magic that images are asked for, and how many bytes a file must have for
/// it to be tested. The call does nothing.
pub fn magic_and_least_size()
    ensures magic { MAGIC ≡ store_magic }
    ensures least { LEAST_SIZE ≡ PAGE_SIZE * (HEADER_PAGE + 1) }
{}

/// All trees are empty exactly if all roots are that of the empty tree. The call does nothing.
pub fn empty_roots()
    ensures { (roots : List Root) → IsTrue (are_empty roots) ↔ All (λ root. root ≡ no_root) roots }
{}
