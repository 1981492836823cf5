//! What is asked of named lists.

ghost use Rattle.std.specs.Prelude.{◌≡◌, ◌≢◌, Err, IfErr, IfOk, MatchResult, Ok, length, map};
ghost use Rattle.std.specs.Prelude.{string_bytes};
ghost use Rattle.rh_expressions.specs.declared.fault.SelectFault.TheVariants.{Memory};
ghost use Rattle.rh_expressions.specs.Formulas.{formula_of, names_list};
ghost use Rattle.rh_expressions.specs.Naming.{IsWithin, all_used, path_in, selection_in};

use crate::expression::Expression;
use crate::fault::SelectFault;
use crate::naming::read_names;
use crate::reading::read;
use std::alloc::Global;

/// What is asked of the lists in these files.
#[derive(Drop)]
pub struct Select {
    pub expression: Expression,
    pub paths: Vec<String>,
}

/// What the text asks of the lists that these words name, each of which is `NAME=FILE`.
///
/// `SelectFault::Memory` comes only where a growth was refused.
pub fn read_select(alloc: Global, text: &str, words: &[String]) -> Result<Select, SelectFault>
    ensures read { IfOk result (λ s.
        selection_in text.now (map string_bytes words.now) ≡ Ok (formula_of s.expression)) }
    ensures paths { IfOk result (λ s.
        map string_bytes s.paths.items ≡ map path_in (map string_bytes words.now)) }
    ensures refused { IfErr result (λ f. f ≢ Memory →
        selection_in text.now (map string_bytes words.now) ≡ Err f) }
    ensures within { IfErr result (IsWithin (length words.now)) }
{
    let named = read_names(alloc, words)?;
    let expression = read(alloc, text, &named.names)?;
    all_used(&expression, named.names.len())?;
    Ok(Select {
        expression,
        paths: named.paths,
    })
}

/// Nothing, where each of so many lists stands in the expression, and else the first that does not.
fn all_used(expression: &Expression, lists: usize) -> Result<(), SelectFault>
    ensures used { MatchResult result
        (λ _. all_used (formula_of expression.now) 0 lists ≡ Ok (formula_of expression.now))
        (λ f. all_used (formula_of expression.now) 0 lists ≡ Err f) }
    ensures within { IfErr result (IsWithin lists) }
{
    for word in 0..lists {
        if !names_list(expression, word) {
            return Err(SelectFault::Unused { word });
        }
    }
    Ok(())
}

/// Whether the list of this index stands in the expression.
fn names_list(expression: &Expression, index: usize) -> bool
    ensures { result ≡ names_list (formula_of expression.now) index }
{
    match expression {
        Expression::List(other) => *other == index,
        Expression::Joined(_, first, second) => {
            names_list(first, index) || names_list(second, index)
        }
    }
}
