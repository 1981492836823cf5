//! A set of keys in memory that grows by itself, is written as a snapshot, and read back from one.
//!
//! `rh_handle` stands on it, which hands such sets to C.
//!
//! ```text
//! let mut set = Set::new(alloc)?;
//! let added = set.insert(alloc, 17)?;                 // true: it was not there
//! let there = set.contains(17);                       // true
//! let mut into = [0; 1];
//! let count = set.keys_into(alloc, &mut into)?;       // 1: 17
//! ```
//!
//! Proved, of the set of keys that a `Set` stands for:
//!
//! - `insert`: the key was added, and the answer says whether it was not there. The table grew only
//!   where that was needed, and to the least size that fits. Else the set is as it was, and why is
//!   told by name: no key; a table of the greatest size is full; or want of memory.
//! - `remove`, `contains`, `len`: what their names say, for every number.
//! - `keys_into`: the rising keys stand at the front of the slice, and behind them what stood
//!   there.
//! - `snapshot_into`: so do the bytes of a snapshot of the set.
//! - `from_snapshot`: the set of a snapshot of either version; other bytes are refused by the first
//!   fault in them.
#![tactic(auto)]

mod fault;
mod putting;
mod set;
mod snapshot;

pub use fault::{InsertFault, PutFault};
pub use set::Set;
