//! Why a run ends early.

use rh_operations::Cause;
use thiserror::Error;

/// The cause that ended a run, and the line of its command. Lines are numbered from 1; 0 is before
/// the first.
#[derive(Clone, Copy, Debug, PartialEq, Eq, Error)]
#[error("line {line}: {cause}")]
pub struct RunFault {
    pub line: u64,
    pub cause: Cause,
}
