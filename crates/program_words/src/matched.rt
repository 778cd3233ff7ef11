//! What the matches of a command line ask for.
ghost use Rattle.std.specs.Prelude.{◌≡◌, ◌∷◌, [], map, option_map};
ghost use Rattle.clap.specs.Words.{first_of, all_of, rows_of, found_of, subcommand_rows_of};
ghost use Rattle.spb_defs.specs.Numbers.{number_of};
ghost use Rattle.spb_defs.specs.Words.{checked_space, parameter_in, space_in, setup_in, without_pivots, with_pivots, positive_in, curve_in};
ghost use Rattle.program_words.specs.Matched.{space_at, positive_at, mem_matched, make_matched, trial_matched, asked_matched};

use clap::ArgMatches;
use metrics_builtin::Space;
use object_text::number;
use spb_defs::{Asked, CurveKind, MEMORY_CAP, MemorySetup, PIVOT_LIMIT};

/// What the subcommand and its words ask for.
pub(crate) fn asked_in(matches: &ArgMatches<'_>) -> Option<Asked>
    ensures { result ≡ asked_matched (subcommand_rows_of matches.now) }
{
    let (name, words) = matches.subcommand()?;
    match name {
        "mem" => mem(words),
        "make" => make(words),
        "run" => Some(Asked::Run),
        "check" => Some(Asked::Check),
        "trial" => trial(words),
        _ => None,
    }
}

/// The store in memory that is asked for.
fn mem(words: &ArgMatches<'_>) -> Option<Asked>
    ensures { result ≡ mem_matched (rows_of (found_of words.now)) }
{
    let kind = word(words, "kind")?.as_bytes();
    let parameters = words_from(words, "parameters")?;
    Some(Asked::Mem(setup(kind, parameters)?))
}

/// The store in a file that is asked for.
fn make(words: &ArgMatches<'_>) -> Option<Asked>
    ensures { result ≡ make_matched (rows_of (found_of words.now)) }
{
    let curve = curve(word(words, "curve")?.as_bytes())?;
    let pivots = positive_at(words, "pivots", PIVOT_LIMIT)? as u8;
    let cap = positive_at(words, "cap", MEMORY_CAP as u64)? as u32;
    let space = space_at(words)?;
    Some(Asked::Make {
        curve,
        pivots,
        cap,
        space,
    })
}

/// The trial that is asked for.
fn trial(words: &ArgMatches<'_>) -> Option<Asked>
    ensures { result ≡ trial_matched (rows_of (found_of words.now)) }
{
    let seed = seed(word(words, "seed")?.as_bytes())?;
    let count = positive_at(words, "count", MEMORY_CAP as u64)? as u32;
    Some(Asked::Trial { seed, count })
}

/// The space that the kind and its parameters name.
fn space_at(words: &ArgMatches<'_>) -> Option<Space>
    ensures { result ≡ space_at (rows_of (found_of words.now)) }
{
    let kind = word(words, "kind")?.as_bytes();
    space(kind, words_from(words, "parameters")?)
}

/// The number from 1 to `most` at the place of this id.
fn positive_at(words: &ArgMatches<'_>, id: &str, most: u64) -> Option<u64>
    ensures { result ≡ positive_at id.now most (rows_of (found_of words.now)) }
{
    positive(word(words, id)?.as_bytes(), most)
}

/// The word at the place of this id.
fn word<'a>(words: &ArgMatches<'a>, id: &str) -> Option<&'a str>
    ensures { option_map (λ word. word.now) result ≡ first_of id.now (rows_of (found_of words.now)) }
{
    words.get_str(id)
}

/// The words from the place of this id on.
fn words_from<'m, 'a>(words: &'m ArgMatches<'a>, id: &str) -> Option<&'m [&'a str]>
    ensures { option_map (λ found. map (λ word. word.now) found.now) result ≡ all_of id.now (rows_of (found_of words.now)) }
{
    words.get_strs(id)
}

/// The store in memory of a kind, its parameters, and then at most one more word for the number of pivots.
fn setup(kind: &[u8], parameters: &[&str]) -> Option<MemorySetup>
    ensures { result ≡ setup_in kind.now (map (λ word. word.now) parameters.now) }
{
    match parameters {
        [first] => without_pivots(with_one(kind, first.as_bytes())),
        [first, second] => two_words(kind, first.as_bytes(), second.as_bytes()),
        [first, second, third] => with_pivots(
            with_two(kind, first.as_bytes(), second.as_bytes()),
            third.as_bytes(),
        ),
        _ => None,
    }
}

/// The store in memory, if two words follow the kind.
fn two_words(kind: &[u8], first: &[u8], second: &[u8]) -> Option<MemorySetup>
    ensures { result ≡ setup_in kind.now (first.now ∷ second.now ∷ []) }
{
    if kind == b"hamming".as_slice() {
        with_pivots(with_one(kind, first), second)
    } else {
        without_pivots(with_two(kind, first, second))
    }
}

/// The store of the space without pivots.
fn without_pivots(space: Option<Space>) -> Option<MemorySetup>
    ensures { result ≡ without_pivots space }
{
    let space = space?;
    Some(MemorySetup { space, pivots: 0 })
}

/// The store of the space with as many pivots as the word says.
fn with_pivots(space: Option<Space>, word: &[u8]) -> Option<MemorySetup>
    ensures { result ≡ with_pivots space word.now }
{
    let space = space?;
    let pivots = number(word, PIVOT_LIMIT)?;
    Some(MemorySetup {
        space,
        pivots: pivots as u8,
    })
}

/// The space of a kind and exactly its parameters.
fn space(kind: &[u8], parameters: &[&str]) -> Option<Space>
    ensures { result ≡ space_in kind.now (map (λ word. word.now) parameters.now) }
{
    match parameters {
        [first] => with_one(kind, first.as_bytes()),
        [first, second] => with_two(kind, first.as_bytes(), second.as_bytes()),
        _ => None,
    }
}

/// The space of a kind and its parameter.
fn with_one(kind: &[u8], first: &[u8]) -> Option<Space>
    ensures { result ≡ space_in kind.now (first.now ∷ []) }
{
    if kind == b"hamming".as_slice() {
        let len = parameter(first)?;
        return fitting(Space::Hamming { len });
    }
    None
}

/// The space of a kind and its two parameters.
fn with_two(kind: &[u8], first: &[u8], second: &[u8]) -> Option<Space>
    ensures { result ≡ space_in kind.now (first.now ∷ second.now ∷ []) }
{
    if kind == b"l1".as_slice() {
        let dim = parameter(first)?;
        let most = parameter(second)?;
        return fitting(Space::L1 { dim, most });
    }
    if kind == b"linf".as_slice() {
        let dim = parameter(first)?;
        let most = parameter(second)?;
        return fitting(Space::LInf { dim, most });
    }
    if kind == b"sets".as_slice() {
        let universe = parameter(first)?;
        let most = parameter(second)?;
        return fitting(Space::Sets { universe, most });
    }
    None
}

/// The space, if its numbers are in range.
fn fitting(space: Space) -> Option<Space>
    ensures { result ≡ checked_space space }
{
    if space.fits() { Some(space) } else { None }
}

/// The number that the word spells.
fn parameter(word: &[u8]) -> Option<u32>
    ensures { result ≡ parameter_in word.now }
{
    let n = number(word, u64::from(u32::MAX))?;
    Some(n as u32)
}

/// The number from 1 to `most` that the word spells.
fn positive(word: &[u8], most: u64) -> Option<u64>
    ensures { result ≡ positive_in most word.now }
{
    let n = number(word, most)?;
    if n == 0 { None } else { Some(n) }
}

/// The number in 64 bits that the word spells.
fn seed(word: &[u8]) -> Option<u64>
    ensures { result ≡ number_of word.now }
{
    number(word, u64::MAX)
}

/// The curve that the word names.
fn curve(word: &[u8]) -> Option<CurveKind>
    ensures { result ≡ curve_in word.now }
{
    if word == b"z".as_slice() {
        return Some(CurveKind::Z);
    }
    if word == b"hilbert".as_slice() {
        return Some(CurveKind::Hilbert);
    }
    None
}
