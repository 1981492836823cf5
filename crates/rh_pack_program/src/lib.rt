//! What `rhpack` does between real files and streams, and how it ends.
//!
//! `rhpack` stands on it, and adds the command `check`: this crate does not stand on what that is
//! worked out by, so that it is proved beside that.
//!
//! Proved:
//!
//! - `Fault::status`, `tell`, `conclude`: the exit status of each fault, by the table
//!   `specs/Endings.antt`.
//! - `pack_streams`, `list_streams`, `plan_streams`: done, or by what the work told, by a failed
//!   write, by want of memory for a buffer, or because a file was not opened. Of readers and writers
//!   whose bytes are known: what the work told is told, and comes before a failed write; all stands
//!   in the writer itself where the command is done.
//! - `split_streams`, `plan_streams`: as many parts are made as are asked for, or as the size asks
//!   for (`parts_of`). That the size is not known is told only where no number was asked for. Of a
//!   part that is too full it is told how many parts would do, where the size asks for more.
//! - All of these: the very fault is told of what was read, with its path where one was named, and a
//!   reason that fits (`specs/Told.antt`).
//!
//! What real files and streams give and take no contract says.
#![tactic(auto)]

mod fault;
mod places;
mod splitting;
mod status;
mod streams;

pub use fault::Fault;
pub use splitting::{plan_streams, split_streams};
pub use status::{conclude, tell};
pub use streams::{list_streams, pack_streams};
