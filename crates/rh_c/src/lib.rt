//! What C calls, as `include/rhset.h` declares it: a static library.
//!
//! ```text
//! status = rhset_intersect(first, 2, second, 3, into, 2, &detail);
//! ```
//!
//! Each call promises again what `combine_into` or `cut_to` of `rh_slices` does, or, of a set that
//! C keeps, what `Handle` of `rh_handle` does. Nothing checks the caller's side: that a pointer has
//! as many numbers behind it as it is said to have, that `into` and `detail` overlap nothing else,
//! and that no other thread writes what a call reads; nor that a handle began as a null pointer,
//! that these calls alone wrote it since, one at a time, and that no copy of it is used.
#![tactic(auto)]

mod answer;
mod exports;
mod sets;

pub use answer::{
    BAD_BITS, BAD_KEY, DAMAGED, DONE, Detail, FULL, LONG, NO_MEMORY, NO_ROOM, NOT_A_LAYOUT,
    NOT_SNAPSHOT, SHORT, VERSION,
};
