//! What `rhset` does between real streams, and how it ends.
//!
//! `rhset` stands on it, and adds the choice of threads alone: this crate stands on no crate of a
//! shared table, so that it is proved beside them.
//!
//! Proved:
//!
//! - `Fault::status`, `tell`, `conclude`: the exit status of each fault, by the table
//!   `specs/Endings.antt`.
//! - `dump_streams`, `check_file`, `run_by`: done, or by what the work told, by a failed write or
//!   by want of memory. Of readers, writers and shelves that are known: what the work told is told,
//!   and comes before a failed write; all stands in the writer itself where the command is done.
//! - `run_by`: a script that is refused is told by its first fault, and a thread that was refused
//!   only where one was.
//! - Of a script the bytes that its reader has are read, or as many of them as no script without a
//!   faulty line can have; or memory was wanted, or a read failed (`front_of`).
//! - A second line, for a terminal: of a script's faulty line it shows the word or the line at fault
//!   (`note_on_script`), and of a run it has the numbers that the last command wanted, or its file,
//!   by the cause alone (`note_on_run`). Which file that is, and why, is tested. It says of the output
//!   why it was not written only where that is the fault (`note_on_unwritten`).
//! - A shelf of whose files it is told how much was read gives and takes what its shelf does
//!   (`FollowedShelf`).
//!
//! What real streams give and take no contract says.
#![tactic(auto)]

mod followed;
mod line_notes;
mod note;
mod run_notes;
mod script;
mod status;
mod streams;

pub use note::{Note, note_on_check, note_on_dump, note_on_unwritten};
pub use script::{Output, run_by};
pub use status::{Fault, conclude, tell};
pub use streams::{check_file, dump_streams};
