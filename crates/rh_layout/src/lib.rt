//! The order of a Robin Hood table (Celis 1986): keys, homes, distances, and the layout of a set of
//! keys.
//!
//! A cell holds 0 where it is empty, else its key plus 1. `rh_probe`, `rh_edit`, `rh_ledger`,
//! `rh_tagword`, `rh_key_files` and `rh_cutting` stand on it; every crate may use its definitions.
//!
//! ```text
//! home(3, 17)                                 // 4: where the search for 17 begins, in 8 cells
//! dist(3, 1, 21)                              // 2: from home 7 round the end to cell 1
//! beats(3, 5, 9, 17)                          // true: both are 1 from home, and 9 is smaller
//! is_layout(3, &[0, 0, 0, 0, 2, 10, 18, 0])   // true: the layout of 1, 9 and 17
//! ```
//!
//! Proved:
//!
//! - `home`, `dist`, `beats`, `cell_of` and `key_in` are exact.
//! - `is_layout` is true exactly of the cells of a layout.
//! - `one_layout`: two layouts of one set, one of them with a free cell, are equal. `cells_agree`:
//!   so are two of one size that hold the same keys.
//! - `has_free`: a layout has as many full cells as its set has keys. So fewer keys than cells
//!   leave one free.
//! - `fixed_numbers`: the greatest key, the most keys of a list, the sizes of a table and the
//!   multiplier of homes, each by its value.
#![tactic(auto)]

mod entry;
mod key;
mod laws;
mod limits;
mod order;
mod table;

pub use entry::Entry;
pub use key::{cell_of, key_in};
pub use laws::{cells_agree, fixed_numbers, has_free, one_layout};
pub use limits::{MAX_BITS, MAX_KEY, MAX_KEYS, MIN_BITS};
pub use order::{beats, dist, home};
pub use table::is_layout;
