//! The fields and the ranks of a text in Forsyth-Edwards notation.
ghost use Rattle.std.specs.Prelude.{◌≡◌, ◌∷◌, ◌≤◌, [], length, MatchOption};
ghost use Rattle.chess.specs.Public.Fen.{fields_of, parted_at};
ghost use Rattle.chess.specs.Shared.Runs.{run_of, after_run, after_all};

/// The text from the first separator on.
fn from_separator(separator: u8, text: &[u8]) -> &[u8]
    ensures { result.now ≡ after_run separator text.now }
{
    let mut rest = text;
    while let [first, after @ ..] = rest
        && *first != separator
    {
        rest = after;
    }
    rest
}

/// The bytes before the first separator, and those from it on.
fn split_run(separator: u8, text: &[u8]) -> (&[u8], &[u8])
    ensures run { result.0.now ≡ run_of separator text.now }
    ensures rest { result.1.now ≡ after_run separator text.now }
{
    let rest = from_separator(separator, text);
    (&text[..text.len() - rest.len()], rest)
}

/// The text after the separators that it begins with.
fn after_separators(separator: u8, text: &[u8]) -> &[u8]
    ensures { result.now ≡ after_all separator text.now }
{
    let mut rest = text;
    while let [first, after @ ..] = rest
        && *first == separator
    {
        rest = after;
    }
    rest
}

/// The first field of a text, and what follows it; `None` where only spaces are left.
pub(crate) fn next_field(text: &[u8]) -> Option<(&[u8], &[u8])>
    ensures { MatchOption result (fields_of text.now ≡ []) (λ found. fields_of text.now
        ≡ found.0.now ∷ fields_of found.1.now) }
{
    let rest = after_separators(b' ', text);
    if rest.is_empty() {
        return None;
    }
    Some(split_run(b' ', rest))
}

/// The text of the first rank, and what follows its slash, if a slash follows it.
pub(crate) fn next_rank(text: &[u8]) -> (&[u8], Option<&[u8]>)
    ensures { MatchOption result.1 (parted_at 47 text.now
        ≡ result.0.now ∷ []) (λ rest. parted_at 47 text.now
        ≡ result.0.now ∷ parted_at 47 rest.now) }
{
    let (rank, rest) = split_run(b'/', text);
    match rest {
        [_, after @ ..] => (rank, Some(after)),
        [] => (rank, None),
    }
}
