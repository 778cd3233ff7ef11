//! Rows of pairs, and the order of rows.
ghost use Rattle.std.specs.Prelude.{◌≡◌, nat_lt};
ghost use Rattle.answer_lists.specs.Order.{goes_before, sorted_by};

use spb_edge::Seq;

/// A row of ranks, each a distance and an id.
pub type Ranks = Seq<(u32, u32)>;

/// A row of pairs of ids.
pub type Pairs = Seq<(u32, u32)>;

/// Sorts the ids, the least first. Equal ids are all kept. It takes no memory, and time as a sort does.
pub fn arrange_ids(ids: &mut Vec<u32>)
    ensures { ids.new.items ≡ sorted_by nat_lt ids.old.items }
{
    ids.sort_unstable();
}

/// Sorts the pairs, by the first part and then by the second. It takes no memory, and time as a sort does.
pub fn arrange(pairs: &mut Vec<(u32, u32)>)
    ensures { pairs.new.items ≡ sorted_by goes_before pairs.old.items }
{
    pairs.sort_unstable();
}
