//! Expressions.

use rh_combine::How;

/// True or false of a number, by the lists in which it stands.
#[derive(Drop)]
pub enum Expression {
    /// Whether it stands in the list of this index. In a list that is not there stands no number.
    List(usize),
    /// Both; one or another; the first and not the second; one and not the other.
    Joined(How, Box<Expression>, Box<Expression>),
}
