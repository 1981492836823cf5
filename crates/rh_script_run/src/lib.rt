//! What a script means, and its run.
//!
//! `rh_set_program` and `rh_planner` stand on it. It knows phases by `Runner` alone, and so needs
//! no crate of the shared table.
//!
//! ```text
//! let mut shelf = MemShelf::new(alloc);
//! shelf.put(alloc, "a.keys", &file)?;
//! let script = parse(alloc, b"use a a.keys\nadd a\ndump\n")?;
//! let mut writer = Counted::new(Vec::new(alloc));
//! let report = run(rt, alloc, &script, &mut shelf, &mut Single, &mut writer)?;
//! ```
//!
//! Proved:
//!
//! - `run`, `meant`: where it answers `Ok`, what was written is the text that the meaning of the
//!   script has to report. The answered number of commands, number of keys and bits are its too.
//! - Where it answers a fault at a line, all commands before were carried out and told. At that
//!   line the meaning ends by this cause, or the cause comes from outside, or a write failed, and
//!   then a front of its text was written.
//! - Causes from outside go by the command: `Put` for `snapshot`, a failed read of a snapshot for
//!   `restore`, one of a key file for those with a list. `Missing` goes with those that fetch, a
//!   refused thread with those that run a phase, and want of memory with all but `dump`.
//! - `Missing`, `Put` and `Write` come only where the file is not there or the device's count of
//!   failures rose. `NoThread` comes only where the runner counted a refused start, and a failed
//!   read of a file only where the shelf was shown a reader that failed (`CountedShelf` of
//!   `rh_shelf`). A count that is the greatest stays, and then tells nothing.
//! - The files are those that the carried out commands made: what `snapshot` put spells the one
//!   layout of the table's keys. Where a `snapshot` was refused, its path alone is in doubt.
//! - All this holds for every runner, for every shelf whose readers tell their bytes, and for every
//!   writer that tells its own. For others no more than safety, and those counts, is claimed.
//! - Where `run` answers `Ok`, no failure of the shelf, of its files or of the writer and no
//!   refused start was counted meanwhile. Nor was a failed read counted, or a refused start, where
//!   another fault is told.
//! - `run_noting` promises what `run` does. The number of keys held that it answers besides is that
//!   after the commands before, by the meaning of the script, but where a write failed.
//! - `runs_agree`: two runs of one script over the same files that both end by themselves have one
//!   result, leave the same files, and append the same text. A run that ends by `Missing` does so
//!   by itself where the shelf counted no failure, or is known not to have the file.
//! - `run_twice`: calls `run` twice, with shelves, runners and writers of their own, and promises
//!   the same of both results.
//! - `ends_as_meant`: the result of a run that ends by itself is that of the script's meaning.
//! - `texts_agree`: whatever ended two runs of one script over the same files, they append fronts
//!   of one text. The one's is a front of the other's where the other ended by itself.
//! - `only_what_is_read_matters`: it is enough that the files are the same at the paths that the
//!   script reads. Each path at which the files were the same has the same afterwards.
#![tactic(auto)]

mod fault;
mod laws;
mod report;
mod running;
mod steps;
mod told;
mod twice;
mod wanted;
mod workspace;

pub use fault::RunFault;
pub use laws::{ends_as_meant, only_what_is_read_matters, runs_agree, texts_agree};
pub use report::Report;
pub use rh_operations::Cause;
pub use running::{run, run_noting};
pub use twice::run_twice;
pub use wanted::Wanted;
