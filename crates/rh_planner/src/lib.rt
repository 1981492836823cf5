//! Scripts over key files: a script is read by `parse` and carried out by `run`, over the files of
//! a `Shelf` and by a `Runner`. That is `Single` for one worker, or `Threads` for several that
//! change one table at once. Where nothing from outside ends a run, what it writes and the files
//! that it leaves are those that the script means, whichever the runner is. `run_twice` carries a
//! script out twice, and promises that two such runs over the same files tell the same.
//!
//! ```text
//! let mut shelf = MemShelf::new(alloc);            // or `FileShelf::new(rt)`, or one of your own
//! shelf.put(alloc, "a.keys", &file)?;
//! let script = parse(alloc, b"use a a.keys\nadd a\ndump\n")?;
//! let mut writer = Counted::new(Vec::new(alloc));  // or any other `Write`
//! let report = run(rt, alloc, &script, &mut shelf, &mut Threads::new(4), &mut writer)?;
//! ```
//!
//! `run` takes any `Shelf`. In a `CountedShelf` it counts the failed reads of the shelf's files
//! too, and then tells one only where there was one (`Lender`).
//!
//! It hands on what `rh_script`, `rh_script_run`, `rh_runner`, `Threads` of `rh_threads` and
//! `rh_shelf` do, with their contracts. With these go `write_keys` of `rh_key_files` and the shelf
//! of `rh_faulty` that fails once. The program `rh_example` carries out a script so, by one worker
//! and by four.
#![tactic(auto)]

pub use rh_faulty::{FaultyShelf, ShelfFailure};
pub use rh_key_files::{Counted, KeyFault, WriteFault, write_keys};
pub use rh_runner::{PhaseFault, Runner, Single};
pub use rh_script::{
    Action, Command, Plan, Script, ScriptFault, ScriptFaultKind, Step, parse, plan,
};
pub use rh_script_run::{
    Cause, Report, RunFault, ends_as_meant, only_what_is_read_matters, run, run_twice, runs_agree,
    texts_agree,
};
pub use rh_shelf::{CountedShelf, FileShelf, Lender, MemShelf, Shelf, ShelfFault};
pub use rh_snapshot::SnapFault;
pub use rh_threads::Threads;
