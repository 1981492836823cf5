//! Names of lists that are split.

ghost use Rattle.std.specs.Prelude.{◌≡◌};
ghost use Rattle.std.specs.List.{list_all};
ghost use Rattle.rh_splitting.specs.Name.{is_allowed, is_name};

/// The most bytes of a name.
pub const MAX_NAME_BYTES: usize = 200;

/// Whether a list may have the name, which stands in the paths of its parts: 1 to 200 bytes, each 33
/// to 126 as in a word of a script, and no slash. So a script can name the paths.
pub fn is_name(name: &str) -> bool
    ensures { result ≡ is_name name.now }
{
    !name.is_empty() && name.len() <= MAX_NAME_BYTES && are_allowed(name.as_bytes())
}

fn are_allowed(bytes: &[u8]) -> bool
    ensures { result ≡ list_all is_allowed bytes.now }
{
    bytes.iter().all(|b| 33 <= *b && *b <= 126 && *b != b'/')
}
