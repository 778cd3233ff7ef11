//! Branches of inner nodes.
ghost use Rattle.std.specs.Prelude.{◌≡◌, ◌+◌, ◌<◌, [], ◌∷◌, Some, length};
ghost use Rattle.std.specs.List.{replace_range};
ghost use Rattle.bptree_node.specs.Nodes as words;
ghost use Rattle.bptree_node.specs.Nodes.{Inner, node_in, FitsBranch};
ghost use Rattle.node_edit.specs.Rows.{branches_on, IsInner};

use bptree_node::{BRANCH_SIZE, Branch, ROWS_AT};
use byteorder::{BigEndian, ByteOrder};
use page_laws::PAGE_SIZE;

/// Puts a branch into the place of another one of an inner node.
pub fn set_branch(page: &mut [u8; PAGE_SIZE], at: usize, branch: &Branch)
    requires inner { IsInner page.old }
    requires place { at < length (branches_on page.old) }
    ensures { node_in page.new ≡ Some (Inner (replace_range (branches_on page.old) at (at + 1) (branch.now ∷ []))) }
{
    let from = ROWS_AT + BRANCH_SIZE * at;
    page[from..from + BRANCH_SIZE].copy_from_slice(&branch_bytes(branch));
}

/// The bytes of a branch.
#[tactic(auto, unfolding(bptree_node::specs::Nodes::branch_bytes))]
fn branch_bytes(branch: &Branch) -> [u8; BRANCH_SIZE]
    ensures bytes { result ≡ words.branch_bytes branch.now }
    ensures fits { FitsBranch branch.now }
{
    let Branch {
        key,
        id,
        child,
        low,
        high,
    } = *branch;
    let mut bytes = [0; BRANCH_SIZE];
    BigEndian::write_u64(&mut bytes, key);
    BigEndian::write_u32(&mut bytes[8..], id);
    BigEndian::write_u32(&mut bytes[12..], child);
    BigEndian::write_u64(&mut bytes[16..], low);
    BigEndian::write_u64(&mut bytes[24..], high);
    bytes
}
