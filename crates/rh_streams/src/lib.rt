//! What commands have alike that work through a buffer, from a stream or a file to another, and what
//! a person is told besides their faults.
//!
//! `rhset`, `rhplay` and `rhpack` stand on it. `rhkeys`, which reads and writes large blocks and has
//! no second line, is built without it.
//!
//! Proved:
//!
//! - `open`: its fault is that the file cannot be opened, or want of memory.
//! - `buffered_reader`, `buffered_writer`: the stream behind an empty buffer of 8,192 bytes, or
//!   want of memory.
//! - `finish`: a fault of the work of a command comes first, then that its output could not be
//!   written out; else it is done, and its buffer is empty. Of a writer that tells its bytes all is
//!   written, or a write failed, and none is lost or comes twice.
//! - `Followed` reads what its reader has.
//! - `Clearing` writes what is written to it to its writer, and nothing else, by a function that
//!   requires that no line of progress stands. `ByLine` adds what is written to it to its buffer.
//! - `note_on_file`, `note_on_output`: the path, and the reason by what the system says.
//! - `quoted`: the text in which bytes are shown, by the definition `specs/Quoted.antt`.
#![tactic(auto)]

mod by_line;
mod note;
mod shared;
mod showing;
mod streams;

pub use by_line::ByLine;
pub use note::{FileNote, note_on, note_on_file, note_on_output, tell_note};
pub use shared::{Clearing, Followed};
pub use showing::quoted;
pub use streams::{buffered_reader, buffered_writer, finish, open};
