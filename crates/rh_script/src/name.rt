//! Which words are names.

ghost use Rattle.std.specs.Prelude.{◌≡◌};
ghost use Rattle.std.specs.List.{list_all};
ghost use Rattle.rh_script.specs.Grammar.{goes_on, is_name};

use crate::limits::MAX_NAME_BYTES;

#[tactic(auto, unfolding(crate::specs::Grammar::is_name))]
pub(crate) fn is_name(word: &str) -> bool
    ensures { result ≡ is_name word.now }
{
    match word.as_bytes() {
        [first, rest @ ..] => {
            first.is_ascii_lowercase() && goes_on(rest) && word.len() <= MAX_NAME_BYTES
        }
        [] => false,
    }
}

/// Whether a name may go on with these bytes.
fn goes_on(rest: &[u8]) -> bool
    ensures { result ≡ list_all goes_on rest.now }
{
    rest.iter()
        .all(|b| b.is_ascii_lowercase() || b.is_ascii_digit())
}
