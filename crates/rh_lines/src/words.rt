//! The words of a line.

ghost use Rattle.std.specs.Prelude.{◌≡◌, ◌≢◌, [], ◌∷◌, MatchOption, IsTrue, not};
ghost use Rattle.std.specs.List.{list_all};
ghost use Rattle.rh_lines.specs.Lines.{is_printable, words_of};

/// The line as a text, if every byte is printable.
pub fn printable(line: &[u8]) -> Option<&str>
    ensures { MatchOption result (IsTrue (not (list_all is_printable line.now)))
        (λ text. (text.now ≡ line.now) × IsTrue (list_all is_printable line.now)) }
{
    if !line.iter().all(|b| *b == b' ' || b.is_ascii_graphic()) {
        return None;
    }
    Some(std::str::from_utf8(line).unwrap())
}

/// The first word, if there is one, and what stands after it.
pub fn next_word(line: &str) -> Option<(&str, &str)>
    ensures { MatchOption result (words_of line.now ≡ [])
        (λ found. words_of line.now ≡ found.0.now ∷ words_of found.1.now) }
{
    let line = line.trim_start_matches(' ');
    if line.is_empty() {
        return None;
    }
    Some(line.split_once(' ').unwrap_or((line, "")))
}

/// Something exactly where no word is left, so that a word too many is refused as a missing one is.
pub fn end_of_words(line: &str) -> Option<()>
    ensures { MatchOption result (words_of line.now ≢ []) (λ _. words_of line.now ≡ []) }
{
    match next_word(line) {
        Some(_) => None,
        None => Some(()),
    }
}
