//! What can be wrong with an expression of named lists.

ghost use Rattle.std.specs.Prelude.{◌≡◌};
ghost use Rattle.rh_expressions.specs.declared.fault.SelectFault.TheVariants.{Memory};

use crate::limits::MAX_EXPRESSION_BYTES;
use std::alloc::{AllocError, AllocFailed};
use thiserror::Error;

/// Why an expression goes no further.
#[derive(Clone, Copy, Debug, PartialEq, Eq, Error)]
pub enum ExpressionFault {
    #[error("an expression has at most {} bytes", MAX_EXPRESSION_BYTES)]
    TooLong,
    /// The byte belongs to no name, and is no sign of an expression.
    #[error("only names and & | - ^ ( ) stand in an expression")]
    Foreign,
    #[error("no FILE has this name")]
    Unknown,
    #[error("a name or ( is missing here")]
    NoOperand,
    #[error("& | - or ^ is missing here")]
    NoOperator,
    #[error("no ( for this )")]
    NotOpened,
    #[error("no ) for this (")]
    NotClosed,
}

/// Why it is not known what is asked of lists. Words are numbered from 0.
#[derive(Clone, Copy, Debug, PartialEq, Eq, Error)]
pub enum SelectFault {
    #[error("not NAME=FILE, with a name of letters, digits and _")]
    NoName { word: usize },
    #[error("another FILE has this name")]
    Twice { word: usize },
    #[error("the expression does not have its name")]
    Unused { word: usize },
    /// The expression has this fault at the byte that has so many before it.
    #[error("column {}: {fault}", at.saturating_add(1))]
    Expression { at: usize, fault: ExpressionFault },
    #[error("out of memory")]
    Memory,
}

impl From<AllocError> for SelectFault {
    ghost from_gives = { λ _ fault. fault ≡ Memory };

    fn from(_error: AllocError) -> SelectFault {
        SelectFault::Memory
    }
}

impl<T: Drop> From<AllocFailed<T>> for SelectFault {
    ghost from_gives = { λ _ fault. fault ≡ Memory };

    fn from(_error: AllocFailed<T>) -> SelectFault {
        SelectFault::Memory
    }
}
