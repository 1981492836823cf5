//! What the system says of what is read, and what is told of it.

ghost use Rattle.std.specs.Prelude.{◌≡◌, ◌≢◌, ◌↔◌, ℕ, IfSome};
ghost use Rattle.std.specs.Fs.{IsDir, file_type};
ghost use Rattle.rh_keys_program.specs.Endings.{ending_by, ending_by_input};
ghost use Rattle.rh_keys_program.specs.Told.{Explains, IsFolderOrNone, IsOfLine};
ghost use Rattle.rh_keys_program.specs.Told.{MayShow, TellsInput};
ghost use Rattle.rh_keys_program.specs.Told.{path_of, reason_of_kind};

use crate::fault::{Fault, Found, InputFault, Place, Reason};
use rh_bytes::{Counted, Filled, fill_front};
use rh_cli::{ProgramFault, STANDARD_INPUT, size_of};
use rh_key_files::KeyFault;
use rh_lists::INPUT;
use rh_numbers::{TextFault, line_at};
use rh_shelf::ShelfFault;
use std::fs::{self, Files, Metadata};
use std::io::ErrorKind;
use std::os::unix::fs::{FileTypeExt, MetadataExt};

/// So many bytes of a file say what it is.
const HEAD_BYTES: usize = 4;

impl Place {
    ghost use Rattle.std.specs.Prelude.{◌≡◌, ℕ, List, [], ◌∷◌, Some, None, map, string_bytes};
    ghost use Rattle.std.specs.Prelude.{unwrap_or};
    ghost use Rattle.rh_lists.specs.declared.paths.TheConstants.{INPUT};
    ghost use Rattle.rh_keys_program.specs.Told.{path_of};

    /// The one file that is named, or standard input where none is.
    pub fn of(mut files: Vec<String>) -> Place
        ensures none { files.items ≡ [] → path_of result ≡ None }
        ensures one { (path : List ℕ) → map string_bytes files.items ≡ path ∷ [] →
            path_of result ≡ Some path }
    {
        match files.pop() {
            Some(path) => Place::File(path),
            None => Place::Input,
        }
    }

    /// The path of the file, where it is not standard input.
    pub fn file(&self) -> Option<&str> {
        match self {
            Place::File(path) if path.as_str() != INPUT => Some(path),
            _ => None,
        }
    }

    /// How it is named: `-` where it is standard input.
    pub fn named(&self) -> &str
        ensures { result.now ≡ unwrap_or (path_of self.now) INPUT.now }
    {
        match self {
            Place::Input => INPUT,
            Place::File(path) => path.as_str(),
        }
    }

    /// How many bytes stand there, where that is a file.
    pub fn size(&self, files: &impl Files) -> Option<u64> {
        size_of(files, self.file().unwrap_or(STANDARD_INPUT))
    }
}

/// Whether a file beside standard input, which is named, is the same pipe: `-` takes all that comes
/// of it.
pub fn is_input_again(files: &impl Files, paths: &[String]) -> bool {
    let Some(input) = pipe_at(files, STANDARD_INPUT) else {
        return false;
    };
    paths.iter().any(|path| path.as_str() != INPUT && pipe_at(files, path) == Some(input))
}

/// The pipe at the path, as the system numbers it, where it is one.
fn pipe_at(files: &impl Files, path: &str) -> Option<(u64, u64)> {
    let Ok(metadata) = fs::metadata(files, path) else {
        return None;
    };
    metadata
        .file_type()
        .is_fifo()
        .then_some((metadata.dev(), metadata.ino()))
}

/// What is told of this fault of what was read. Want of memory is no fault of that.
pub fn told_of_input(files: &impl Files, place: Place, fault: InputFault) -> Fault
    ensures ending { ending_by result ≡ ending_by_input fault }
    ensures tells { TellsInput (path_of place) fault result }
{
    match fault {
        InputFault::Open(ShelfFault::Memory)
        | InputFault::Text(TextFault::Memory)
        | InputFault::Keys(KeyFault::Memory) => Fault::Program(ProgramFault::Memory),
        _ => {
            let reason = reason_of(files, &place, fault);
            let found = found_in(files, &place, fault);
            Fault::Input {
                place,
                fault,
                reason,
                found,
            }
        }
    }
}

/// Why it was not opened or read, as far as the system says it now.
fn reason_of(files: &impl Files, place: &Place, fault: InputFault) -> Reason
    ensures { Explains fault result }
{
    match fault {
        InputFault::Open(_) => reason_unopened(files, place),
        InputFault::Text(TextFault::Read) | InputFault::Keys(KeyFault::Read) => {
            reason_unread(files, place)
        }
        _ => Reason::Unknown,
    }
}

/// Why it was not opened. Of standard input the system says nothing: where that is closed, a folder
/// stands in its place.
fn reason_unopened(files: &impl Files, place: &Place) -> Reason
    ensures { result ≢ Reason.Folder }
{
    let Some(path) = place.file() else {
        return Reason::Unknown;
    };
    match fs::open(files, path) {
        Ok(_) => Reason::Unknown,
        Err(error) => reason_of_kind(error.kind()),
    }
}

/// Why a read of it failed: it may be a folder. Of standard input the system says nothing.
pub fn reason_unread(files: &impl Files, place: &Place) -> Reason
    ensures { IsFolderOrNone result }
{
    let Some(path) = place.file() else {
        return Reason::Unknown;
    };
    match fs::metadata(files, path) {
        Ok(metadata) => reason_in(&metadata),
        Err(_) => Reason::Unknown,
    }
}

/// What stands in the line that is refused. A file is looked at again; what came through a pipe, or
/// on standard input, which may have been begun behind its first line, is gone.
fn found_in(files: &impl Files, place: &Place, fault: InputFault) -> Found
    ensures { MayShow fault result }
{
    let InputFault::Text(TextFault::NotAKey { line } | TextFault::OutOfRange { line }) = fault
    else {
        return Found::Nothing;
    };
    let Some(path) = place.file() else {
        return Found::Once { line };
    };
    if size_of(files, path).is_none() {
        return Found::Once { line };
    }
    look_again(files, path, line)
}

/// What stands in this line of the file, or what its first bytes say of all of it.
fn look_again(files: &impl Files, path: &str, line: u64) -> Found
    ensures { IsOfLine line result }
{
    let head = head_of(files, path);
    match kind_of(head) {
        Some(found) => found,
        None => line_found(files, path, line, begins_a_name(head)),
    }
}

/// What stands in this line of the file, whose first line may be a heading.
fn line_found(files: &impl Files, path: &str, line: u64, has_heading: bool) -> Found
    ensures { IsOfLine line result }
{
    let Ok(file) = fs::open(files, path) else {
        return Found::Nothing;
    };
    match line_at(&mut Counted::new(file), line) {
        Some(excerpt) if line == 1 && has_heading => Found::Heading(excerpt),
        Some(excerpt) => Found::Line(excerpt),
        None => Found::Nothing,
    }
}

/// The first bytes of the file, or zeros where it has not so many.
fn head_of(files: &impl Files, path: &str) -> [u8; HEAD_BYTES] {
    let mut head = [0; HEAD_BYTES];
    if let Ok(file) = fs::open(files, path) {
        let Filled { count, failed } = fill_front(&mut Counted::new(file), &mut head);
        if !failed && count == HEAD_BYTES {
            return head;
        }
    }
    [0; HEAD_BYTES]
}

/// What a file is that begins so, where that is no text.
fn kind_of(head: [u8; HEAD_BYTES]) -> Option<Found>
    ensures { (line : ℕ) → IfSome result (IsOfLine line) }
{
    match head {
        [0x1f, 0x8b, _, _] => Some(Found::Zipped),
        [b'R', b'H', b'S', b'1' | b'2'] => Some(Found::Snapshot),
        [0xff, 0xfe, _, _] | [0xfe, 0xff, _, _] => Some(Found::Wide),
        _ => None,
    }
}

/// Whether a text that begins so has a name in its first line, as the heading of a table has.
fn begins_a_name(head: [u8; HEAD_BYTES]) -> bool {
    head[0].is_ascii_alphabetic() || head[0] == b'"'
}

/// Why a file was not opened, of which the system says this.
fn reason_of_kind(kind: ErrorKind) -> Reason
    ensures { result ≡ reason_of_kind kind }
{
    match kind {
        ErrorKind::NotFound => Reason::NoFile,
        ErrorKind::PermissionDenied => Reason::NoRight,
        _ => Reason::Unknown,
    }
}

/// Why a file of which a read failed was not read: a folder can be opened, but not read.
fn reason_in(metadata: &Metadata) -> Reason
    ensures folder { IsDir (file_type metadata.now) ↔ result ≡ Reason.Folder }
    ensures unknown { IsFolderOrNone result }
{
    if metadata.is_dir() {
        Reason::Folder
    } else {
        Reason::Unknown
    }
}
