//! A set as C keeps it: a pointer, which is null where the set is empty and has no table.
//!
//! `rh_c` stands on it. What reaches memory through a raw pointer is proved by hand here, and
//! nowhere above: `Loose` is a box taken apart, and `Handle` such a box, or none.
//!
//! ```text
//! let mut handle = Handle::empty();
//! let added = handle.insert(alloc, 17)?;      // true, as it was not there
//! let there = handle.contains(alloc, 17);     // true
//! handle.clear(alloc);                        // an empty set again
//! ```
//!
//! Proved: a handle owns the set that was put into it, and each call makes of that set, and
//! answers, what the call of `Set` with its name does (`held_in` of `specs/Calls.antt`). A handle
//! may go to another thread.
#![tactic(auto)]

mod calls;
mod handle;
mod loose;
mod moving;

pub use handle::Handle;
