//! What is told of lists that are read from real files and streams, and how a run ends.
//!
//! `rhkeys` stands on it, and `rh_pack_program`, which tells the same of what `rhpack` reads. It does
//! not stand on what lists are worked out by, so that it is proved beside that.
//!
//! Proved:
//!
//! - `Fault::status`, `tell`, `conclude`: the exit status of each fault, by the table
//!   `specs/Endings.antt`.
//! - `workers_of`: as many workers as were asked for, and else at least one and no more than a run
//!   may have.
//! - `told_of_input`, `told_of_list`, `with_path`: the very fault is told of what was read, with its
//!   path where one was named, and a reason that fits; want of memory and a failed write are told
//!   by themselves, with no path (`specs/Told.antt`).
//! - `told_of_select`: the very fault is told of the word that has it, or of the expression, with
//!   the number of bytes before it. Where its caret stands is tested, and not proved.
//!
//! What real files and streams give and take no contract says.
#![tactic(auto)]

mod fault;
mod inputs;
mod lists;
mod marked;
mod status;

pub use fault::{Fault, Found, InputFault, Place, Reason};
pub use inputs::{is_input_again, reason_unread, told_of_input};
pub use lists::{bytes_of, times_named, told_of_list, told_of_select, with_path, workers_of};
pub use marked::Marked;
pub use status::{conclude, reason_unwritten, tell};
