//! What a person is told besides a fault: the file, and why the system did not open, read or write it.

ghost use Rattle.std.specs.Prelude.{◌≡◌, IfSome, Some, string_bytes};
ghost use Rattle.rh_cli.specs.Notes.{reason_of};
ghost use Rattle.rh_streams.specs.Notes.{Explains};

use rh_cli::{Reason, reason_of};
use std::alloc::Global;
use std::fmt::Display;
use std::fs::{self, Files, Metadata};
use std::io::{self, ErrorKind};
use thiserror::Error;

/// A file, and why the system did not open, read or write it.
#[derive(Debug, Drop, Error)]
#[error("{path}: {reason}")]
pub struct FileNote {
    pub path: String,
    pub reason: Reason,
}

/// The file at the path, where the system says now why it cannot be opened or read. What is no
/// plain file is not opened: that may wait for another program.
pub fn note_on_file<F: Files>(alloc: Global, files: &F, path: &str) -> Option<FileNote>
    ensures { IfSome result (λ note. string_bytes note.path ≡ path.now) }
{
    let found = fs::metadata(files, path);
    let is_plain = found.as_ref().is_ok_and(|metadata| metadata.is_file());
    let reason = match reason_found(&found) {
        None if is_plain => reason_opened(fs::open(files, path).err()),
        reason => reason,
    };
    note_on(alloc, path, reason?)
}

/// The file at this path, with this reason. It takes memory for the path.
pub fn note_on(alloc: Global, path: &str, reason: Reason) -> Option<FileNote>
    ensures path { IfSome result (λ note. string_bytes note.path ≡ path.now) }
    ensures reason { IfSome result (λ note. note.reason ≡ reason) }
{
    let Ok(path) = String::from_str(alloc, path) else {
        return None;
    };
    Some(FileNote { path, reason })
}

/// What is said of output that could not be written, where the system said this of the last write.
pub fn note_on_output(alloc: Global, refused: Option<ErrorKind>) -> Option<FileNote>
    ensures { IfSome result (λ note. IfSome refused (λ kind. reason_of kind ≡ Some note.reason)) }
{
    note_on(alloc, "standard output", reason_of(refused?)?)
}

/// Why what the system finds at a path cannot be opened or read, as far as it says so.
fn reason_found(found: &io::Result<Metadata>) -> Option<Reason>
    ensures { Explains found.now result }
{
    match found {
        Ok(metadata) if metadata.is_dir() => Some(Reason::Folder),
        Ok(_) => None,
        Err(error) => reason_of(error.kind()),
    }
}

fn reason_opened(refused: Option<io::Error>) -> Option<Reason> {
    reason_of(refused?.kind())
}

/// Tells a person besides a fault, under the name of the program, as far as standard error takes it.
pub fn tell_note<N: Display>(rt: &impl Eprint, name: &str, note: &Option<N>) {
    if let Some(note) = note {
        let _ = eprintln!(rt; "{name}: {note}");
    }
}
