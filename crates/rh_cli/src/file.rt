//! The files that a command line names.

ghost use Rattle.rh_cli.specs.Sizes.{IsSizeIn};

use std::fs::{self, Files, Metadata};

/// Where the system has standard input.
pub const STANDARD_INPUT: &str = "/dev/stdin";

/// How many bytes stand at the path, where that is a file.
pub fn size_of(files: &impl Files, path: &str) -> Option<u64> {
    match fs::metadata(files, path) {
        Ok(metadata) => size_in(&metadata),
        Err(_) => None,
    }
}

/// The size that the system says, if it is that of a file.
fn size_in(metadata: &Metadata) -> Option<u64>
    ensures { IsSizeIn metadata.now result }
{
    metadata.is_file().then_some(metadata.len())
}
