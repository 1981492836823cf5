//! Why a text was not written.

use thiserror::Error;

/// Why a text could not be written.
#[derive(Clone, Copy, Debug, PartialEq, Eq, Error)]
pub enum WriteFault {
    #[error("cannot write the output")]
    Write,
}
