//! Snapshots of tables, sealed by their SHA-256 (FIPS 180-4).
//!
//! `rh_operations` puts and restores them, `rh_commands` checks them, and `rh_key_texts` lists
//! their keys. `rh_files` hands them on.
//!
//! Proved:
//!
//! - `read_snapshot`: a snapshot of either version is read to its bits, number of keys, cells and
//!   seal. The cells are a layout of the keys that were written, with a free cell.
//! - Other bytes are refused by the first fault in them. `Read` comes only where the reader's count
//!   of failures rose.
//! - Of a reader whose bytes are known no more are taken than the answer rests on, and never more
//!   than 2,097,198.
//! - `write_snapshot`: the vector grew by the one spelling of the table in the second version,
//!   which is read back to the same bits, cells and seal. Where memory was refused, the vector is
//!   as it was.
//! - `one_snapshot`: what the grammar spells is read, and what is read is spelled so.
//! - `fixed_numbers`: a table of the first version has at most 16 bits.
#![tactic(auto)]

mod cells;
mod fault;
mod header;
mod laws;
mod parts;
mod reading;
mod snapshot;
mod version;
mod writing;

pub use fault::SnapFault;
pub use laws::{fixed_numbers, one_snapshot};
pub use reading::read_snapshot;
pub use snapshot::Snapshot;
pub use version::Version;
pub use writing::write_snapshot;
