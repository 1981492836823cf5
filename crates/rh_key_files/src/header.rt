//! What a key file begins with.

use crate::version::Version;

/// The header of a key file: its version and the number of its keys.
#[derive(Drop)]
pub(crate) struct Header {
    pub version: Version,
    pub count: u64,
}
