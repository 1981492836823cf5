//! The command line of `rhset`, and its commands that need no script: the dump of a key file and
//! the check of a snapshot.
//!
//! `rhset` and `rh_set_program` stand on it.
//!
//! Proved, of the command line:
//!
//! - `line::line`: the command is the one that the words name, by the rules of `clap`, with what
//!   they give. It is refused exactly by the kinds of fault that those rules give.
//! - `fixed_numbers`: at most 16 workers are taken.
//!
//! Proved, for every reader and writer whose bytes are known:
//!
//! - `dump_keys`: where it answers `Ok`, the bytes read were a key file of some list. The writer
//!   grew by the dump of a layout of its set, at the least bits from 3 to 18 that the list's length
//!   fits.
//! - On `Write` it grew by a front of that text, on any other fault by nothing. `Keys(fault)` is
//!   the first fault in bytes that are no key file.
//! - `TooLarge` comes only where 18 bits do not do for the keys of the whole file. `Memory` comes
//!   only where no more than a good header was read, or where 18 bits do.
//! - `check_snapshot`: where it answers `Ok`, the bytes read were a snapshot of a table. The writer
//!   grew by the line of that table: its bits, the number of its keys, and its seal in hexadecimal
//!   digits.
//! - On `Write` it grew by a front of that line, on `Snap(fault)` by nothing, and this is the first
//!   fault in bytes that are no snapshot. `Snap(Memory)` comes only after a header that can be
//!   read.
//! - Of both, `Read` and `Write` come only where the device's count of failures rose. Neither takes
//!   more of its reader than its answer rests on.
//!
//! For other readers and writers no more than safety, and those counts, is claimed.
#![tactic(auto)]

mod check;
mod dump;
mod laws;
mod limits;
pub mod line;

pub use check::{CheckFault, check_snapshot};
pub use dump::{DumpFault, dump_keys};
pub use laws::fixed_numbers;
