//! New files beside the paths that they are to take.

use std::alloc::Global;
use std::fs::{self, Files};
use std::io::{self, ErrorKind};

/// What is written beside a path, before it takes its place, has this at the end of its name, and a
/// number.
pub const BESIDE: &str = ".rhset-part-";

/// How many names are tried for it. Each run that is cut may leave such a file, which no other one
/// touches: it may be at work.
pub const NAMES: u32 = 10_000;

/// A new file beside the path, and its path. A file that is there already is left as it is. The
/// error is `OutOfMemory` for want of memory, and `AlreadyExists` where all names are taken.
pub fn create_beside<F: Files>(
    alloc: Global,
    files: &F,
    path: &str,
) -> io::Result<(F::File, String)> {
    for number in 0..NAMES {
        let Ok(beside) = format!(in alloc; "{path}{BESIDE}{number}") else {
            return Err(io::Error::from(ErrorKind::OutOfMemory));
        };
        match fs::File::create_new(files, &beside) {
            Ok(file) => return Ok((file, beside)),
            Err(error) if error.kind() == ErrorKind::AlreadyExists => {}
            Err(error) => return Err(error),
        }
    }
    Err(io::Error::from(ErrorKind::AlreadyExists))
}
