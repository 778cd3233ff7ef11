//! The roots of two trees in the profile page.
ghost use Rattle.std.specs.Prelude.{◌≡◌, ℕ, ◌^◌, ◌<◌, [], ◌∷◌, ◌++◌, List, IsTrue, OnOk, length, Some};
ghost use Rattle.page_laws.specs.Calls.{PagesContinue};
ghost use Rattle.page_laws.specs.Errors.{CountsFault};
ghost use Rattle.page_laws.specs.Pages.{risen, JoinsAtMost};
ghost use Rattle.page_laws.specs.declared.pages.TheConstants.{CHANGE_LIMIT};
ghost use Rattle.redo_journal.specs.Header.{number_bytes};
ghost use Rattle.store_check.specs.Profile.{trees_in};
ghost use Rattle.root_page.specs.Trees.{AreRootsOf, SetsTrees};

use byteorder::{BigEndian, ByteOrder};
use page_laws::{PAGE_SIZE, PageError, Pages, Root};

/// The page that a store's profile is in.
pub const PROFILE_PAGE: u32 = 1;

/// At which byte of the profile page the roots begin, those of a collection's two trees together.
const ROOTS_AT: usize = 32;

/// How many bytes a root has.
const ROOT_SIZE: usize = 8;

/// How many bytes the roots of a collection's two trees have.
const TREES_SIZE: usize = 2 * ROOT_SIZE;

/// The roots of a collection's two trees.
#[derive(Clone, Copy, Debug, PartialEq, Eq)]
pub struct Trees {
    /// The root of the tree by curve keys.
    pub curve: Root,
    /// The root of the tree by ids.
    pub ids: Root,
}

/// Replaces the roots of a collection, 0 to 3, in the profile page, in the open change, in which fewer than
/// 80 pages were put before. It reads and puts one page, whose other bytes stay as they are.
pub fn put_trees<P: Pages>(pages: &mut P, c: u8, trees: Trees) -> Result<(), PageError>
    requires collection { c < 4 }
    requires there { IsTrue (P.has pages.old PROFILE_PAGE) }
    requires open { IsTrue (P.is_open pages.old) }
    requires few { length (P.put_pages pages.old) < CHANGE_LIMIT }
    ensures profile { IsTrue (P.is_known pages.old)
        → OnOk result (SetsTrees c trees (P.page_at pages.old PROFILE_PAGE) (P.page_at pages.new PROFILE_PAGE)) }
    ensures others { IsTrue (P.is_known pages.old)
        → OnOk result ((n : ℕ) → (n ≡ PROFILE_PAGE → ⊥) → P.page_at pages.new n ≡ P.page_at pages.old n) }
    ensures put { OnOk result (JoinsAtMost PROFILE_PAGE (P.put_pages pages.old) (P.put_pages pages.new)) }
    ensures continues { PagesContinue P.is_known P.has P.in_pool P.free P.is_open P.calm pages.old pages.new }
    ensures fetches { P.fetches pages.new ≡ risen (P.fetches pages.old) 1 }
    ensures fault { CountsFault result (P.faults pages.old) (P.faults pages.new) }
{
    let mut page = [0; PAGE_SIZE];
    pages.get(PROFILE_PAGE, &mut page)?;
    set_trees(&mut page, c, trees);
    pages.put(PROFILE_PAGE, &page);
    Ok(())
}

/// Replaces the roots of a collection, 0 to 3, in a profile page. Its other bytes stay as they are.
pub fn set_trees(page: &mut [u8; PAGE_SIZE], c: u8, trees: Trees)
    requires { c < 4 }
    ensures { SetsTrees c trees page.old page.new }
{
    let at = ROOTS_AT + TREES_SIZE * c as usize;
    page[at..at + TREES_SIZE].copy_from_slice(&trees_bytes(trees));
}

/// The bytes of the roots of a collection's two trees.
fn trees_bytes(trees: Trees) -> [u8; TREES_SIZE]
    ensures { AreRootsOf trees → (rest : List ℕ) → trees_in (result ++ rest) ≡ Some (trees.curve, trees.ids) }
{
    let mut bytes = [0; TREES_SIZE];
    let (front, back) = bytes.split_at_mut(ROOT_SIZE);
    front.copy_from_slice(&root_bytes(trees.curve));
    back.copy_from_slice(&root_bytes(trees.ids));
    bytes
}

/// The bytes of a root.
#[tactic(auto, unfolding(redo_journal::specs::Header::number_bytes))]
fn root_bytes(root: Root) -> [u8; ROOT_SIZE]
    ensures bytes { result ≡ number_bytes root.page ++ (root.height ∷ 0 ∷ 0 ∷ 0 ∷ []) }
    ensures fits { root.page < 2 ^ 32 }
{
    let mut bytes = [0, 0, 0, 0, root.height, 0, 0, 0];
    BigEndian::write_u32(&mut bytes, root.page);
    bytes
}
