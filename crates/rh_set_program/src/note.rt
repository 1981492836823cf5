//! What a person is told besides a fault, on a line of its own.

ghost use Rattle.std.specs.Prelude.{IfSome};
ghost use Rattle.rh_set_program.specs.Notes.{IsUnwritten};

use crate::status::Fault;
use rh_cli::{ProgramFault, Status};
use rh_commands::{CheckFault, DumpFault};
use rh_key_files::KeyFault;
use rh_layout::MAX_BITS;
use rh_script_run::{Cause, RunFault};
use rh_snapshot::SnapFault;
use rh_streams::{FileNote, note_on_file, note_on_output};
use std::alloc::Global;
use std::fs::Files;
use std::io::ErrorKind;
use thiserror::Error;

/// The most keys for which a command makes a table: they fill three quarters of it.
const MOST_KEYS: u64 = 3 << (MAX_BITS - 2);

/// What the line of a fault does not say: the file and the reason, the numbers, or the word and the
/// rule. It is for a terminal alone.
#[derive(Debug, Drop, Error)]
pub enum Note {
    #[error(transparent)]
    File(FileNote),
    #[error("{held} keys held and {list} in the list, repeats counted: at most {}; \
         see rhkeys split", MOST_KEYS)]
    TooLarge { held: u64, list: u64 },
    /// The same of keys whose number is not known.
    #[error("at most {} keys, repeats counted; see rhkeys split", MOST_KEYS)]
    TooMany,
    /// The file that a command names as a key file.
    #[error("{path}: rhkeys pack makes a key file of a text")]
    Text { path: String },
    /// The same of standard input, of which the bytes are not known any more.
    #[error("rhkeys pack makes a key file of a text")]
    Input,
    #[error("{word}: a name is a small letter and up to 15 more small letters or digits")]
    Name { word: String },
    #[error("{word}: a line has spaces and bytes 33 to 126 alone")]
    Byte { word: String },
    #[error("{word}: a command is use, add, drop, ask, keep, flip, save, clear, dump, snapshot or \
         restore")]
    Command { word: String },
    #[error("{line}: the form is {form}")]
    Form { line: String, form: &'static str },
}

/// What is said of the file at the path, where it cannot be opened or read.
pub(crate) fn note_on_path(rt: &(impl Files + AllocGlobal), path: &str) -> Option<Note> {
    Some(Note::File(note_on_file(rt.alloc(), rt, path)?))
}

/// What is said of a check of the snapshot at the path that ended so.
pub fn note_on_check(
    rt: &(impl Files + AllocGlobal),
    path: &str,
    ended: &Result<Status, Fault>,
) -> Option<Note> {
    match ended {
        Err(Fault::Program(ProgramFault::Open) | Fault::Check(CheckFault::Snap(SnapFault::Read))) =>
            { note_on_path(rt, path) }
        _ => None,
    }
}

/// What is said of a dump that ended so.
pub fn note_on_dump(ended: &Result<Status, Fault>) -> Option<Note> {
    match ended {
        Err(Fault::Dump(DumpFault::TooLarge)) => Some(Note::TooMany),
        Err(Fault::Dump(DumpFault::Keys(KeyFault::NotKeys))) => Some(Note::Input),
        _ => None,
    }
}

/// What is said of a command that ended so because its output could not be written, where the system
/// said this of the last write.
pub fn note_on_unwritten(
    alloc: Global,
    ended: &Result<Status, Fault>,
    refused: Option<ErrorKind>,
) -> Option<Note>
    ensures { IfSome result (λ _. IsUnwritten ended.now) }
{
    match ended {
        Err(
            Fault::Program(ProgramFault::Write)
            | Fault::Dump(DumpFault::Write)
            | Fault::Check(CheckFault::Write)
            | Fault::Run(
                RunFault {
                    cause: Cause::Write,
                    ..
                },
            ),
        ) => Some(Note::File(note_on_output(alloc, refused)?)),
        _ => None,
    }
}
