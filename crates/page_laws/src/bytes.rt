//! Bytes of pages.
ghost use Rattle.std.specs.Prelude.{◌≡◌, ◌==◌};
ghost use Rattle.std.specs.Int.{w64, from_le_bytes};
ghost use Rattle.std.specs.List.{list_all};
ghost use Rattle.page_laws.specs.Pages as words;

/// Whether all of the bytes are zero, looked at eight at a time.
#[tactic(auto, using(crate::proofs::ZeroGroups::by_groups))]
pub fn are_zero(bytes: &[u8]) -> bool
    ensures { result ≡ words.are_zero bytes.now }
{
    let (groups, rest) = bytes.as_chunks();
    are_zero_groups(groups) && are_zero_singly(rest)
}

/// Whether each of the groups is the number zero.
fn are_zero_groups(groups: &[[u8; 8]]) -> bool
    ensures { result ≡ list_all (λ group. from_le_bytes w64 group == 0) groups.now }
{
    let mut bits = 0;
    for group in groups {
        bits |= u64::from_le_bytes(*group);
    }
    bits == 0
}

/// Whether all of a few bytes are zero, looked at one by one.
#[tactic(auto, unfolding(crate::specs::Pages::are_zero))]
fn are_zero_singly(bytes: &[u8]) -> bool
    ensures { result ≡ words.are_zero bytes.now }
{
    bytes.iter().all(|b| *b == 0)
}
