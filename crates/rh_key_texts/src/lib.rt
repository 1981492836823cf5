//! The commands between texts of numbers, key files and snapshots: packing and listing.
//!
//! `rh_keys_program` stands on it.
//!
//! Proved, for every reader and writer whose bytes are known:
//!
//! - `pack`: where it answers `Ok`, the bytes read were a text of some keys, and the writer grew by
//!   the key file of exactly these. On `Write` it grew by a front of that file, on a refused text
//!   by nothing, and the fault is the first in the text. Want of memory and a failed read are told
//!   only where nothing that was taken holds a fault.
//! - `list_keys`, `list_snapshot`: the same of a key file of any number of keys and their text, in
//!   order, and of a snapshot and the text of its keys in rising order. Want of memory for a
//!   snapshot is told before a byte behind its header is read, or once all of it was.
//! - Of these, `Read` and `Write` come only where the device's count of failures rose. The lists
//!   take no more of their reader than their answer rests on, and a refused `pack` at most 8,192
//!   bytes more.
//! - `list_files`: of files at paths, the texts of each one's keys were written, one after the
//!   other. Else those of the files before `index`, and of that one nothing, or a front on `Write`;
//!   its fault is the first in its bytes, and want of memory for them comes only behind a header
//!   that can be read. A failed read is told only where the shelf was shown the
//!   reader of one, and else it was shown none.
//! - `listed_again`: what was packed from a text of keys is listed as a text of the same keys.
//!   `packed_again`: what was listed of a key file of the second version is packed to the same
//!   bytes.
//!
//! For other readers and writers no more than safety, and those counts, is claimed.
#![tactic(auto)]

mod files;
mod laws;
mod listing;
mod packing;
mod snapshot;

pub use files::{FaultAt, FileFault, Form, list_files};
pub use laws::{listed_again, packed_again};
pub use listing::{ListFault, list_keys};
pub use packing::{PackFault, pack};
pub use snapshot::{HeldFault, list_snapshot};
