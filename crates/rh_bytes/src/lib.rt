//! Bytes from a reader and to a writer: whole buffers, the parts of a binary file, and what fails.
//!
//! `rh_key_files`, `rh_dump`, `rh_snapshot`, `rh_numbers`, `rh_shelf` and `rh_lists` stand on it.
//! It knows no key and no table.
//!
//! Proved:
//!
//! - `Counted` counts errors, and writes that took no byte.
//! - `fill`, `fill_front`: a buffer is filled up to the end of the input, or a read failed, and
//!   then no byte beside those was taken.
//! - `write_text`, `write_texts`: all was written, or a front of it where the writer failed.
//! - `read_bytes`, `read_number`, `read_end`: what the bytes say, or the fault in them, which is
//!   one of the file that is read (`InputFault`).
#![tactic(auto)]

mod bytes;
mod counted;
mod fault;
mod input;
mod progress;

pub use bytes::{Filled, fill, fill_front, write_text, write_texts};
pub use counted::Counted;
pub use fault::WriteFault;
pub use input::{InputFault, read_bytes, read_end, read_number};
pub use progress::{Nobody, Progress};
