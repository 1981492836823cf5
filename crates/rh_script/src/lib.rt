//! Scripts: their commands, read from a text.
//!
//! `rh_script_run` carries out what it reads.
//!
//! Proved:
//!
//! - `parse`: a script is read exactly by the grammar of scripts. Other texts are refused by the
//!   first fault of their first faulty line, or for want of memory. A fault stands at a line before
//!   which no line has one, want of memory too.
//! - In what it answers each name is given once, and before it is used. No path is both read as
//!   keys and written as a snapshot, and no snapshot is written twice.
//! - Each step of a script has its command's line and the number of its list, and `plan` hands on
//!   just these steps.
//! - `fixed_numbers`: the limits of a script, each by its value.
#![tactic(auto)]

mod action;
mod command;
mod fault;
mod given;
mod laws;
mod limits;
mod name;
mod planning;
mod reading;
mod script;
mod verb;

pub use action::Action;
pub use fault::{ScriptFault, ScriptFaultKind};
pub use laws::fixed_numbers;
pub use limits::{MAX_LINE_BYTES, MAX_LINES, MAX_NAME_BYTES};
pub use planning::plan;
pub use reading::parse;
pub use script::{Command, Plan, Script, Step};
