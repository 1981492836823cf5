//! Dumps: tables as text.
//!
//! `rh_commands`, `rh_script_run` and `rh_play_run` write them, and `rh_report` speaks of their
//! text. `rh_files` hands the call on.
//!
//! Proved: `write_dump` writes the text of the dump, or a front of it where the writer failed.
#![tactic(auto)]

mod writing;

pub use writing::write_dump;
