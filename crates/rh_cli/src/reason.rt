//! Why the system did not open, read or write a file.

ghost use Rattle.std.specs.Prelude.{◌≡◌};
ghost use Rattle.rh_cli.specs.Notes.{reason_of};

use std::io::ErrorKind;
use thiserror::Error;

/// What the system says of a file that was not opened, read or written.
#[derive(Clone, Copy, Debug, PartialEq, Eq, Error)]
pub enum Reason {
    #[error("no such file")]
    NoFile,
    #[error("no such folder")]
    NoFolder,
    #[error("permission denied")]
    NoRight,
    #[error("is a directory")]
    Folder,
    #[error("is no plain file")]
    NotPlain,
    #[error("no space left")]
    NoSpace,
}

/// Why a file was not opened or written, of which the system says this.
pub fn reason_of(kind: ErrorKind) -> Option<Reason>
    ensures { result ≡ reason_of kind }
{
    match kind {
        ErrorKind::NotFound => Some(Reason::NoFile),
        ErrorKind::PermissionDenied => Some(Reason::NoRight),
        ErrorKind::StorageFull => Some(Reason::NoSpace),
        _ => None,
    }
}
