//! What is said of a run that ended early.

ghost use Rattle.std.specs.Prelude.{◌≡◌, IfSome, string_bytes};
ghost use Rattle.rh_set_program.specs.Notes.{NotesRun};

use crate::note::Note;
use rh_bytes::{Counted, fill};
use rh_cli::{Reason, reason_of};
use rh_key_files::KeyFault;
use rh_script::{Command, Script};
use rh_script_run::{Cause, RunFault, Wanted};
use rh_snapshot::SnapFault;
use rh_streams::{note_on, note_on_file};
use std::alloc::Global;
use std::fs::{self, Files};
use std::io::ErrorKind;

/// So many bytes of a file are looked at.
const HEAD: usize = 4;

/// What is said of the run of a script that this fault ended, where the last command wanted this,
/// and the system said this of the last file that it refused.
pub(crate) fn note_on_run<F: Files>(
    alloc: Global,
    files: &F,
    script: &Script,
    fault: &RunFault,
    wanted: Option<Wanted>,
    refused: Option<ErrorKind>,
) -> Option<Note>
    ensures { IfSome result (NotesRun fault.now.cause wanted) }
{
    if let Cause::TooLarge = fault.cause {
        let Wanted { held, list } = wanted?;
        return Some(Note::TooLarge { held, list });
    }
    let path = path_at(script, fault.line)?;
    match fault.cause {
        Cause::Missing | Cause::Keys(KeyFault::Read) | Cause::Snap(SnapFault::Read) => {
            Some(Note::File(note_on_file(alloc, files, path)?))
        }
        Cause::Put => Some(Note::File(note_on(alloc, path, reason_of_put(refused?)?)?)),
        Cause::Keys(KeyFault::NotKeys | KeyFault::Short) => {
            let path = path_of_text(alloc, files, path)?;
            Some(Note::Text { path })
        }
        _ => None,
    }
}

/// The path that the command on this line names, or that of its list.
fn path_at(script: &Script, line: u64) -> Option<&str> {
    let step = script.steps().iter().find(|step| step.line == line)?;
    match &step.command {
        Command::Use { path, .. } | Command::Snapshot { path } | Command::Restore { path } => {
            Some(path.as_str())
        }
        Command::Act { name, .. } => path_of(script, name),
        Command::Save { .. } | Command::Clear | Command::Dump => None,
    }
}

/// The path of the list of this name, if its file was named.
fn path_of<'a>(script: &'a Script, list: &str) -> Option<&'a str> {
    for step in script.steps() {
        if let Command::Use { name, path } = &step.command {
            if name.as_str() == list {
                return Some(path.as_str());
            }
        }
    }
    None
}

/// Why no file was put at a path, of which the system says this.
fn reason_of_put(kind: ErrorKind) -> Option<Reason> {
    match kind {
        ErrorKind::NotFound => Some(Reason::NoFolder),
        ErrorKind::InvalidInput => Some(Reason::NotPlain),
        _ => reason_of(kind),
    }
}

/// The path, where the file there begins as a text of numbers does.
fn path_of_text<F: Files>(alloc: Global, files: &F, path: &str) -> Option<String>
    ensures { IfSome result (λ text. string_bytes text ≡ path.now) }
{
    if !begins_as_text(files, path)? {
        return None;
    }
    String::from_str(alloc, path).ok()
}

fn begins_as_text<F: Files>(files: &F, path: &str) -> Option<bool> {
    if !fs::metadata(files, path).ok()?.is_file() {
        return None;
    }
    let mut head = [0; HEAD];
    let n = fill(&mut Counted::new(fs::open(files, path).ok()?), &mut head)?;
    Some(head.starts_with(b"#") || head[..n].iter().all(|b| may_begin(*b)))
}

/// Whether a text of numbers may begin with this byte, if it does not begin with `#`.
fn may_begin(byte: u8) -> bool {
    byte.is_ascii_digit() || matches!(byte, b' ' | b'\t' | b'\r' | b'\n')
}
