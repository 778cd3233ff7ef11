ghost use Rattle.std.specs.Prelude.{◌≡◌, ◌==◌, [], ◌∷◌, MatchOption};
ghost use Rattle.std.specs.List.{position, slice_split};

/// The part of `text` before the first byte `mark`, and what follows it, or None if no byte is
/// `mark`.
///
/// It takes no memory, and passes over the part once.
pub fn cut(mark: u8, text: &[u8]) -> Option<(&[u8], &[u8])>
    ensures { MatchOption result
        (slice_split (λ b. b == mark) text.now ≡ text.now ∷ [])
        (λ found. slice_split (λ b. b == mark) text.now ≡ found.0.now ∷ slice_split (λ b. b == mark) found.1.now) }
{
    match place(mark, text) {
        Some(at) => Some((&text[..at], &text[at + 1..])),
        None => None,
    }
}

/// Where the first byte `mark` is.
fn place(mark: u8, text: &[u8]) -> Option<usize>
    ensures { result ≡ position (λ b. b == mark) text.now }
{
    text.iter().position(|b| *b == mark)
}
