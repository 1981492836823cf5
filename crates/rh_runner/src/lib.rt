//! Who carries out phases (`Runner`), one worker that does (`Single`), and phases over whole lists.
//!
//! Scripts know phases by `Runner` alone: `rh_operations` and `rh_script_run` stand on it, and
//! `Threads` of `rh_threads` is another one.
//!
//! Proved:
//!
//! - `Runner`: what a phase has to do, whoever does it, by how many workers. The cells that it
//!   makes are the one layout of the set after the keys (`AreTheCells`), so any two runners make
//!   the same cells.
//! - A runner counts the starts of threads that were refused. It tells of one only where that count
//!   rose and its workers are more than one; where it tells want of memory, the count is as it was.
//! - `Single` does it with one worker, and its count stays 0.
//! - `change_all`, `ask_all`, `read_through` and `take_all`: a list that comes in batches is gone
//!   through as the whole list.
//! - `choose`: of a list the keys that a set holds, or the others.
//! - A fault of the keys is the one that their source told, and where another is told, the source
//!   told none. A start that was refused is told as that.
#![tactic(auto)]

mod chosen;
mod fault;
mod host;
mod lists;
mod runner;
mod scratch;
mod single;

pub use chosen::{Chosen, choose};
pub use fault::ListFault;
pub use host::Host;
pub use lists::{BATCH, LOOK_UPS, PHASE, ask_all, change_all, read_through, take_all};
pub use runner::{PhaseFault, Runner};
pub use scratch::Scratch;
pub use single::Single;
