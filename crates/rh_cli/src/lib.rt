//! What the programs have alike: their words, their standard streams, and how they end.
//!
//! The programs stand on it. How they end by a fault of a file is said in `rh_endings`.
//!
//! Proved:
//!
//! - `ProgramFault::status`, `answer`: the exit status of the faults that any command may meet, and
//!   of what `clap` answers, by the table `specs/Endings.antt`. A failed write is told only of a
//!   text that was asked for.
//! - `words`: its fault is a word that is no text, or want of memory, and never a failed write.
//! - `hold_closed`: what is held has the number of a standard stream.
//! - `size_of`: the size that the system says, where that is one of a file.
//! - `Outlet` writes what is written to it to its writer, and nothing else. It keeps what the system
//!   said of its last failure.
//! - `ProgressLine`: what it writes to its terminal, and when a line stands there. Before another
//!   line, and where it is cleared, the one that stands is taken away.
//! - `reason_of`: the reason by what the system says.
#![tactic(auto)]

mod closed;
mod file;
mod outlet;
mod program;
mod progress;
mod reason;
mod status;

pub use closed::hold_closed;
pub use file::{STANDARD_INPUT, size_of};
pub use outlet::Outlet;
pub use program::{answer, words};
pub use progress::ProgressLine;
pub use reason::{Reason, reason_of};
pub use status::{ProgramFault, Status};
