//! Reading an expression.

ghost use Rattle.std.specs.Prelude.{◌≡◌, ◌∷◌, IfErr, IfOk, Ok, map, string_bytes};
ghost use Rattle.rh_expressions.specs.Formulas.{formula_of, join};
ghost use Rattle.rh_expressions.specs.Grammar.{IsFaultOf, after_none, after_operand};
ghost use Rattle.rh_expressions.specs.Grammar.{after_token, at_end, beginnings_of, closed};
ghost use Rattle.rh_expressions.specs.Grammar.{fault_at, first, formula_in, goes_first};
ghost use Rattle.rh_expressions.specs.Grammar.{state_of, whole, with_operator};

use crate::expression::Expression;
use crate::fault::{ExpressionFault, SelectFault};
use crate::limits::MAX_EXPRESSION_BYTES;
use crate::token::{Token, TokenKind, tokens};
use rh_combine::How;
use std::alloc::{AllocError, Global};

/// What is begun of an expression, the last first.
#[derive(Drop)]
pub(crate) enum Begun {
    Nothing,
    /// A parenthesis that opens at this byte.
    Open(usize, Box<Begun>),
    /// The first of two that are joined.
    First(Expression, How, Box<Begun>),
}

/// What is known between two tokens: what is begun, and the operand before, if one ends here.
#[derive(Drop)]
pub(crate) struct State {
    pub(crate) begun: Begun,
    pub(crate) operand: Option<Expression>,
}

/// What the text is read as, where the lists have these names.
pub(crate) fn read(alloc: Global, text: &str, names: &[String]) -> Result<Expression, SelectFault>
    ensures read { IfOk result (λ e.
        formula_in (map string_bytes names.now) text.now ≡ Ok (formula_of e)) }
    ensures refused { IfErr result (IsFaultOf (formula_in (map string_bytes names.now) text.now)) }
{
    if text.len() > MAX_EXPRESSION_BYTES {
        return Err(fault(MAX_EXPRESSION_BYTES, ExpressionFault::TooLong));
    }
    let tokens = tokens(alloc, text, names)?;
    let mut state = State {
        begun: Begun::Nothing,
        operand: None,
    };
    for token in &tokens {
        state = after_token(alloc, state, *token)?;
    }
    at_end(alloc, state, text.len())
}

fn fault(at: usize, fault: ExpressionFault) -> SelectFault
    ensures { result ≡ fault_at at fault }
{
    SelectFault::Expression { at, fault }
}

fn after_token(alloc: Global, state: State, token: Token) -> Result<State, SelectFault>
    ensures read { IfOk result (λ s. after_token token (state_of state) ≡ Ok (state_of s)) }
    ensures refused { IfErr result (IsFaultOf (after_token token (state_of state))) }
{
    let State { begun, operand } = state;
    match operand {
        None => after_none(alloc, begun, token),
        Some(operand) => after_operand(alloc, begun, operand, token),
    }
}

/// What is known after a token where an operand is missing.
fn after_none(alloc: Global, begun: Begun, token: Token) -> Result<State, SelectFault>
    ensures read { IfOk result (λ s.
        after_none token.at token.kind (beginnings_of begun) ≡ Ok (state_of s)) }
    ensures refused { IfErr result (IsFaultOf
        (after_none token.at token.kind (beginnings_of begun))) }
{
    let missing = match token.kind {
        TokenKind::List(index) => {
            return Ok(State {
                begun,
                operand: Some(Expression::List(index)),
            });
        }
        TokenKind::Open => {
            let outer = Box::new(alloc, begun)?;
            return Ok(State {
                begun: Begun::Open(token.at, outer),
                operand: None,
            });
        }
        TokenKind::Unknown => ExpressionFault::Unknown,
        TokenKind::Foreign => ExpressionFault::Foreign,
        TokenKind::Operator(_) | TokenKind::Close => ExpressionFault::NoOperand,
    };
    Err(fault(token.at, missing))
}

/// What is known after a token behind an operand.
fn after_operand(
    alloc: Global,
    begun: Begun,
    operand: Expression,
    token: Token,
) -> Result<State, SelectFault>
    ensures read { IfOk result (λ s.
        after_operand token.at token.kind (beginnings_of begun) (formula_of operand)
        ≡ Ok (state_of s)) }
    ensures refused { IfErr result (IsFaultOf
        (after_operand token.at token.kind (beginnings_of begun) (formula_of operand))) }
{
    match token.kind {
        TokenKind::Operator(how) => {
            let begun = with_operator(alloc, begun, operand, how)?;
            Ok(State {
                begun,
                operand: None,
            })
        }
        TokenKind::Close => closed(alloc, begun, operand, token.at),
        TokenKind::Foreign => Err(fault(token.at, ExpressionFault::Foreign)),
        _ => Err(fault(token.at, ExpressionFault::NoOperator)),
    }
}

/// What is begun behind an operator, once the operators before this operand that go first have it.
fn with_operator(
    alloc: Global,
    begun: Begun,
    operand: Expression,
    how: How,
) -> Result<Begun, AllocError>
    ensures { IfOk result (λ b.
        with_operator how (beginnings_of begun) (formula_of operand) ≡ beginnings_of b) }
{
    match begun {
        Begun::First(first, before, outer) => {
            if goes_first(before, how) {
                let joined = join(alloc, before, first, operand)?;
                with_operator(alloc, Box::into_inner(outer), joined, how)
            } else {
                with_first(alloc, Begun::First(first, before, outer), operand, how)
            }
        }
        begun => with_first(alloc, begun, operand, how),
    }
}

/// Whether of two operators the first has its operands before the second has: `&` before each, and
/// each before all but `&`.
fn goes_first(before: How, after: How) -> bool
    ensures { result ≡ goes_first before after }
{
    before == How::Intersect || after != How::Intersect
}

/// What is begun with the first of two.
fn with_first(
    alloc: Global,
    begun: Begun,
    operand: Expression,
    how: How,
) -> Result<Begun, AllocError>
    ensures { IfOk result (λ b.
        beginnings_of b ≡ first (formula_of operand) how ∷ beginnings_of begun) }
{
    let outer = Box::new(alloc, begun)?;
    Ok(Begun::First(operand, how, outer))
}

fn join(
    alloc: Global,
    how: How,
    first: Expression,
    second: Expression,
) -> Result<Expression, AllocError>
    ensures { IfOk result (λ e.
        formula_of e ≡ join how (formula_of first) (formula_of second)) }
{
    let first = Box::new(alloc, first)?;
    let second = Box::new(alloc, second)?;
    Ok(Expression::Joined(how, first, second))
}

/// What is known after a parenthesis that closes.
fn closed(alloc: Global, begun: Begun, operand: Expression, at: usize) -> Result<State, SelectFault>
    ensures read { IfOk result (λ s.
        closed at (beginnings_of begun) (formula_of operand) ≡ Ok (state_of s)) }
    ensures refused { IfErr result (IsFaultOf
        (closed at (beginnings_of begun) (formula_of operand))) }
{
    match begun {
        Begun::Nothing => Err(fault(at, ExpressionFault::NotOpened)),
        Begun::Open(_, outer) => Ok(State {
            begun: Box::into_inner(outer),
            operand: Some(operand),
        }),
        Begun::First(first, how, outer) => {
            let joined = join(alloc, how, first, operand)?;
            closed(alloc, Box::into_inner(outer), joined, at)
        }
    }
}

/// What the text is that ends here.
fn at_end(alloc: Global, state: State, end: usize) -> Result<Expression, SelectFault>
    ensures read { IfOk result (λ e. at_end end (state_of state) ≡ Ok (formula_of e)) }
    ensures refused { IfErr result (IsFaultOf (at_end end (state_of state))) }
{
    let State { begun, operand } = state;
    match operand {
        None => Err(fault(end, ExpressionFault::NoOperand)),
        Some(operand) => whole(alloc, begun, operand),
    }
}

/// All that is begun, with the operand that the text ends with.
fn whole(alloc: Global, begun: Begun, operand: Expression) -> Result<Expression, SelectFault>
    ensures read { IfOk result (λ e.
        whole (beginnings_of begun) (formula_of operand) ≡ Ok (formula_of e)) }
    ensures refused { IfErr result (IsFaultOf (whole (beginnings_of begun) (formula_of operand))) }
{
    match begun {
        Begun::Nothing => Ok(operand),
        Begun::Open(at, _) => Err(fault(at, ExpressionFault::NotClosed)),
        Begun::First(first, how, outer) => {
            let joined = join(alloc, how, first, operand)?;
            whole(alloc, Box::into_inner(outer), joined)
        }
    }
}
