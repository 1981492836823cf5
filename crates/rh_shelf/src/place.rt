//! What stands where a new file is to be put.

ghost use Rattle.std.specs.Prelude.{◌↔◌, IsTrue};
ghost use Rattle.rh_shelf.specs.Places.{IsFree};

use std::alloc::Global;
use std::fs::{self, Files, Metadata};
use std::io::{self, ErrorKind};

/// Below this stand the streams of a process, which links as `/dev/stdout` lead to.
const PROCESSES: &str = "/proc/";

/// Nothing stands at the path, or a plain file, or a link to one. A link to a stream of a process is
/// none, whatever that stream is. Else the error is `InvalidInput`; or `OutOfMemory`, or what the
/// system says where it cannot tell what stands there.
pub(crate) fn check_place<F: Files>(alloc: Global, files: &F, path: &str) -> io::Result<()> {
    let found = fs::metadata(files, path);
    if is_free(&found) && !leads_to_stream(alloc, files, path)? {
        return Ok(());
    }
    found?;
    Err(io::Error::from(ErrorKind::InvalidInput))
}

/// Whether a file may be put where the system finds this.
fn is_free(found: &io::Result<Metadata>) -> bool
    ensures { IsTrue result ↔ IsFree found.now }
{
    match found {
        Ok(metadata) => metadata.is_file(),
        Err(error) => error.kind() == ErrorKind::NotFound,
    }
}

/// Whether a link stands at the path that leads to a stream of a process.
fn leads_to_stream<F: Files>(alloc: Global, files: &F, path: &str) -> io::Result<bool> {
    match files.read_link(alloc, path) {
        Ok(link) => Ok(link.as_str().starts_with(PROCESSES)),
        Err(error) if error.kind() == ErrorKind::OutOfMemory => Err(error),
        Err(_) => Ok(false),
    }
}
