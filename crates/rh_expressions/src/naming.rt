//! Words that name lists.

ghost use Rattle.std.specs.Prelude.{◌≡◌, ◌≢◌, [], Err, IfErr, IfOk, MatchOption, Ok, false};
ghost use Rattle.std.specs.Prelude.{length, map, string_bytes, true};
ghost use Rattle.rh_expressions.specs.declared.fault.SelectFault.TheVariants.{Memory};
ghost use Rattle.std.specs.List.{list_all};
ghost use Rattle.rh_expressions.specs.Tokens.{is_of_name as may_stand};
ghost use Rattle.rh_expressions.specs.Naming.{IsWithin, is_named, is_one_of as stands_among};
ghost use Rattle.rh_expressions.specs.Naming.{name_in, names_in, path_in};

use crate::fault::SelectFault;
use crate::token::is_of_name;
use std::alloc::{AllocError, Global};

/// The names of lists, and the paths of their files.
#[derive(Drop)]
pub(crate) struct Named {
    pub(crate) names: Vec<String>,
    pub(crate) paths: Vec<String>,
}

/// The names and paths of these words, each of which is `NAME=FILE`.
pub(crate) fn read_names(alloc: Global, words: &[String]) -> Result<Named, SelectFault>
    ensures names { IfOk result (λ n.
        names_in [] (map string_bytes words.now) ≡ Ok (map string_bytes n.names.items)) }
    ensures paths { IfOk result (λ n.
        map string_bytes n.paths.items ≡ map path_in (map string_bytes words.now)) }
    ensures refused { IfErr result (λ f. f ≢ Memory →
        names_in [] (map string_bytes words.now) ≡ Err f) }
    ensures len { IfOk result (λ n. length n.names.items ≡ length words.now) }
    ensures within { IfErr result (IsWithin (length words.now)) }
{
    let mut names = Vec::new(alloc);
    let mut paths = Vec::new(alloc);
    for word in 0..words.len() {
        let Some((name, path)) = cut(&words[word]) else {
            return Err(SelectFault::NoName { word });
        };
        if is_one_of(name, &names) {
            return Err(SelectFault::Twice { word });
        }
        names.push(String::from_str(alloc, name)?)?;
        paths.push(String::from_str(alloc, path)?)?;
    }
    Ok(Named { names, paths })
}

/// The name and the path of a word `NAME=FILE`.
fn cut(word: &str) -> Option<(&str, &str)>
    ensures { MatchOption result (is_named word.now ≡ false)
        (λ c. (is_named word.now ≡ true) × (c.0.now ≡ name_in word.now)
        × (c.1.now ≡ path_in word.now)) }
{
    let (name, path) = word.split_once('=')?;
    if name.is_empty() || path.is_empty() || !is_name(name) {
        return None;
    }
    Some((name, path))
}

/// Whether each byte may stand in a name.
fn is_name(text: &str) -> bool
    ensures { result ≡ list_all may_stand text.now }
{
    text.as_bytes().iter().all(|byte| is_of_name(*byte))
}

/// Whether the text is one of these.
fn is_one_of(name: &str, names: &[String]) -> bool
    ensures { result ≡ stands_among name.now (map string_bytes names.now) }
{
    names
        .iter()
        .any(|other| other.as_bytes() == name.as_bytes())
}
