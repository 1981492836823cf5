//! Insertion into a Robin Hood table (Celis 1986), removal by backward shift, and the set of one
//! worker.
//!
//! `rh_grow`, `rh_combine`, `rh_acts`, `rh_runner` and `rh_operations` stand on it, and so does
//! whoever wants a set with one table: `SeqSet`.
//!
//! ```text
//! let mut set = SeqSet::new(alloc, 3)?;   // 8 cells: no more memory is taken
//! let added = set.insert(17);             // true, as it was not there; one cell has to stay free
//! let there = set.has(17);                // true
//! let removed = set.remove(9);            // false
//! ```
//!
//! `rh_table_tests` has such a set whole.
//!
//! Proved:
//!
//! - `insert`, `remove`: the layout of a set becomes the layout of the changed set. The answer says
//!   whether it changed.
//! - `insert_news`, `remove_news`: the new values of a segment, exactly. `value_with`,
//!   `value_without`: one of them.
//! - `insert_segment`, `remove_segment`: a layout whose segment is overwritten by these values is
//!   the layout of the changed set, also round the end.
//! - `SeqSet`: its cells are always a layout with a free cell. Each of its calls means what its
//!   name says.
#![tactic(auto)]

mod insertion;
mod laws;
mod news;
mod removal;
mod set;

pub use insertion::insert;
pub use laws::{insert_segment, remove_segment};
pub use news::{insert_news, remove_news, value_with, value_without};
pub use removal::remove;
pub use set::SeqSet;
