//! The rows of the four collections.
ghost use Rattle.std.specs.Prelude.{◌≡◌, ◌<◌, ◌≤◌, length, map};
ghost use Rattle.row_list.specs.Slotted.{rows_of};
ghost use Rattle.open_store.specs.Store.{tables_of, table_at, row_count};

use row_list::{Row, RowList};

/// The rows of a collection, 0 to 3.
pub(crate) fn rows_at(lists: &[RowList; 4], c: u8) -> &[Row]
    requires { c < 4 }
    ensures { result.now ≡ rows_of (table_at (tables_of lists.now) c) }
{
    lists[c as usize].rows()
}

/// How many rows a collection has.
pub(crate) fn len_at(lists: &[RowList; 4], c: u8) -> usize
    requires { c < 4 }
    ensures { result ≡ length (table_at (tables_of lists.now) c) }
{
    lists[c as usize].len()
}

/// How many rows there are.
pub(crate) fn count_rows(lists: &[RowList; 4]) -> usize
    requires { row_count (tables_of lists.now) ≤ 65536 }
    ensures { result ≡ row_count (tables_of lists.now) }
{
    let mut count = 0;
    for c in 0..4u8 {
        count += len_at(lists, c);
    }
    count
}
