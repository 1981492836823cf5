//! The standard streams that are closed.

ghost use Rattle.std.specs.Prelude.{All};
ghost use Rattle.rh_cli.specs.Closed.{IsHeld};

use std::fs::{self, Files};
use std::os::fd::AsRawFd;

/// The number of the last standard stream, which is standard error.
const LAST_STREAM: i32 = 2;

/// Opens a folder in the place of each standard stream that is closed, which stands there for as
/// long as the answer is held.
///
/// A new file takes the least number that is free. So a file of the program would else stand where
/// the closed stream did, and be read or written as that. A folder can be neither: what needs the
/// stream is told that the read or the write failed, as it is of a stream that is closed.
pub fn hold_closed<F: Files>(files: &F) -> [Option<F::File>; 3]
where
    F::File: AsRawFd,
    ensures { All (IsHeld F.File.raw_fd) result }
{
    [hold_next(files), hold_next(files), hold_next(files)]
}

/// Opens the folder where it takes the place of a standard stream; else none is left open.
fn hold_next<F: Files>(files: &F) -> Option<F::File>
where
    F::File: AsRawFd,
    ensures { IsHeld F.File.raw_fd result }
{
    let Ok(folder) = fs::open(files, "/") else {
        return None;
    };
    (folder.as_raw_fd() <= LAST_STREAM).then_some(folder)
}
