//! What a person is told besides a fault, on a line of its own.

ghost use Rattle.std.specs.Prelude.{◌≡◌, IfSome, string_bytes};
ghost use Rattle.rhplay.specs.Endings.{IsUnwritten, NotesFile};

use crate::status::Fault;
use rh_cli::{ProgramFault, Status};
use rh_play_run::{DrawFault, PlayRunFault, TellFault};
use rh_streams::{FileNote, note_on_file, note_on_output};
use std::alloc::Global;
use std::fs::Files;
use std::io::ErrorKind;

/// What is said of the file of a play that ended so: why it cannot be opened or read.
pub fn note_on_play(
    rt: &(impl Files + AllocGlobal),
    path: &str,
    ended: &Result<Status, Fault>,
) -> Option<FileNote>
    ensures path { IfSome result (λ note. string_bytes note.path ≡ path.now) }
    ensures fault { IfSome result (λ _. NotesFile ended.now) }
{
    match ended {
        Err(
            Fault::Program(ProgramFault::Open)
            | Fault::Play(TellFault::Play(PlayRunFault::Read))
            | Fault::Draw(DrawFault::Play(PlayRunFault::Read)),
        ) => note_on_file(rt.alloc(), rt, path),
        _ => None,
    }
}

/// What is said of a play that ended so because its output could not be written, where the system
/// said this of the last write.
pub fn note_on_unwritten(
    alloc: Global,
    ended: &Result<Status, Fault>,
    refused: Option<ErrorKind>,
) -> Option<FileNote>
    ensures { IfSome result (λ _. IsUnwritten ended.now) }
{
    match ended {
        Err(
            Fault::Program(ProgramFault::Write)
            | Fault::Play(TellFault::Play(PlayRunFault::Write))
            | Fault::Draw(DrawFault::Play(PlayRunFault::Write)),
        ) => note_on_output(alloc, refused),
        _ => None,
    }
}
