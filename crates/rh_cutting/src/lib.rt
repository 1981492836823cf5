//! Lists of numbers in memory, in pieces, and how they are cut into parts at borders, by several
//! workers.
//!
//! `rh_lists` reads such lists, and `rh_combine_workers` works out what comes of them, part by part.
//!
//! ```text
//! let cut = cut_lists(&team, lists)?;
//! for part in 0..cut.parts() { .. }
//! ```
//!
//! A list comes in pieces, as they were read. By a sample of all keys borders are chosen, between
//! which about as many keys stand as between others: so one key far away gives no part all others.
//! The pieces are cut there, side by side. A key's part is looked up in a table of hints and
//! tested, and searched for among the borders where the hint is wrong.
//!
//! Proved:
//!
//! - `KeyList`: its keys are those of its pieces, one piece after the other, and all are in range.
//! - `cut_lists`: each part of each list has exactly what the list has between the two borders, in
//!   its order, and each key stands in one part. The number of workers stands nowhere in it.
//!
//! That the parts are about equally large, and most hints right, is measured and not proved.
#![tactic(auto)]

mod borders;
mod cut;
mod hints;
mod limits;
mod list;
mod lists;
mod parts;
mod whole;

pub use borders::Borders;
pub use list::KeyList;
pub use lists::cut_lists;
pub use parts::Parts;
pub use whole::CutLists;
