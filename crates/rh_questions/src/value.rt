//! What is true of a number that stands in these lists: bit i of a word says it of list i.

ghost use Rattle.std.specs.Prelude.{◌≡◌, Bool, List, false, get_or};
ghost use Rattle.rh_expressions.specs.Formulas.{formula_of, is_true, joined};
ghost use Rattle.rh_questions.specs.Selections.{code, wants};

use crate::limits::MOST_LISTS;
use crate::selection::Selection;
use rh_combine::How;
use rh_expressions::Expression;

/// Whether the number stands in the list of this index.
fn stands_in(lists: u64, index: usize) -> bool
    ensures { (row : List Bool) → lists ≡ code row → result ≡ get_or row index false }
{
    index < MOST_LISTS && (lists >> index) & 1 == 1
}

/// What is joined of two.
fn joined(how: How, first: bool, second: bool) -> bool
    ensures { result ≡ joined how first second }
{
    match how {
        How::Intersect => first && second,
        How::Union => first || second,
        How::Subtract => first && !second,
        How::Xor => (first && !second) || (second && !first),
    }
}

/// Whether the expression is true of the number.
fn is_true(expression: &Expression, lists: u64) -> bool
    ensures { (row : List Bool) → lists ≡ code row →
        result ≡ is_true (formula_of expression.now) row }
{
    match expression {
        Expression::List(index) => stands_in(lists, *index),
        Expression::Joined(how, first, second) => {
            joined(*how, is_true(first, lists), is_true(second, lists))
        }
    }
}

/// Whether the number is wanted.
pub(crate) fn wants(selection: &Selection, lists: u64) -> bool
    ensures { (row : List Bool) → lists ≡ code row → result ≡ wants selection.now row }
{
    match selection {
        Selection::AtLeast(least) => lists.count_ones() as usize >= *least,
        Selection::Where(expression) => is_true(expression, lists),
    }
}
