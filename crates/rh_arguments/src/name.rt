//! The name by which a program was called.

ghost use Rattle.std.specs.Prelude.{◌≡◌};
ghost use Rattle.rh_arguments.specs.Name.{name_in};
ghost use Rattle.rh_arguments.specs.Words.{texts_of};

use std::path::Path;

/// The name by which a program was called, in the words of its command line; `own` is the one that
/// it has itself. A launcher may hand the words on to another program, whose user is told of them
/// under the name that was called.
pub fn name_called<'a>(words: &'a [String], own: &'a str) -> &'a str
    ensures { result.now ≡ name_in (texts_of words.now) own.now }
{
    match words.first() {
        Some(word) => Path::new(word).file_name().unwrap_or(own),
        None => own,
    }
}
