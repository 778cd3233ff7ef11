//! The journal's header page.
ghost use Rattle.std.specs.Prelude.{◌≡◌, ◌<◌, ◌≤◌, ◌↔◌, IfOk, IfErr, IsTrue, length};
ghost use Rattle.redo_journal.specs.declared.layout.TheConstants.{CHANGE_LIMIT};
ghost use Rattle.redo_journal.specs.Pages.{IsHome};
ghost use Rattle.redo_journal.specs.Header.{header_page, leading_number, page_numbers, IsCount, IsHeader, IsFirstBad};

use crate::Field;
use crate::layout::{CHANGE_LIMIT, FIRST_HOME, HEADER_PAGE, NUMBERS_AT, PAGE_SIZE};
use arrayvec::ArrayVec;
use byteorder::{BigEndian, ByteOrder};

/// The numbers of the pages of a change, in ascending order.
pub(crate) type Numbers = ArrayVec<u32, CHANGE_LIMIT>;

/// Whether a change may replace this page of a file of this many.
pub(crate) fn is_home(total: u32, n: u32) -> bool
    ensures { IsTrue result ↔ IsHome total n }
{
    (1..HEADER_PAGE).contains(&n) || (FIRST_HOME..total).contains(&n)
}

/// The number in the first four bytes.
#[tactic(auto, unfolding(crate::specs::Header::leading_number))]
fn number_in(bytes: &[u8]) -> u32
    requires { 4 ≤ length bytes.now }
    ensures { result ≡ leading_number bytes.now }
{
    BigEndian::read_u32(bytes)
}

/// Whether a change may have this many pages.
fn is_count(count: u32) -> bool
    ensures { IsTrue result ↔ IsCount count }
{
    (1..=CHANGE_LIMIT as u32).contains(&count)
}

/// Whether this number may follow the last one in a header.
fn is_next(total: u32, last: u32, n: u32) -> bool
    ensures { IsTrue result ↔ (IsHome total n × (last < n)) }
{
    is_home(total, n) && last < n
}

/// The header of a change to these pages.
pub(crate) fn header_of(numbers: &[u32]) -> [u8; PAGE_SIZE]
    requires { length numbers.now ≤ CHANGE_LIMIT }
    ensures { result ≡ header_page numbers.now }
{
    let mut header = [0; PAGE_SIZE];
    BigEndian::write_u32(&mut header, numbers.len() as u32);
    BigEndian::write_u32_into(
        numbers,
        &mut header[NUMBERS_AT..NUMBERS_AT + 4 * numbers.len()],
    );
    header
}

/// The numbers of the pages in a header of a file of this many pages, or the first field of it that is out of its
/// range.
pub(crate) fn read_header(total: u32, header: &[u8; PAGE_SIZE]) -> Result<Numbers, Field>
    ensures good { IfOk result (λ numbers. (numbers.items ≡ page_numbers header.now) × IsHeader total header.now) }
    ensures bad { IfErr result (λ field. IsFirstBad total header.now field) }
{
    let count = number_in(header);
    if !is_count(count) {
        return Err(Field::Count(count));
    }
    let mut numbers = ArrayVec::new();
    let mut last = 0;
    for place in 0..count {
        let number = number_in(&header[NUMBERS_AT + 4 * place as usize..]);
        if !is_next(total, last, number) {
            return Err(Field::Page { place, number });
        }
        numbers.push(number);
        last = number;
    }
    Ok(numbers)
}
