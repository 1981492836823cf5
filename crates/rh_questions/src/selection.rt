//! Which numbers of lists are wanted.

use rh_expressions::Expression;

/// Which numbers of lists are wanted. One that stands in no list is never.
#[derive(Drop)]
pub enum Selection {
    /// Those that stand in so many lists or more.
    AtLeast(usize),
    /// Those of which the expression is true.
    Where(Expression),
}
