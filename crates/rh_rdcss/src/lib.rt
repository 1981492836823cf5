//! Restricted double-compare single-swap (Harris, Fraser, Pratt 2002) on a table that threads
//! share: the calls by which one worker reads a cell or a control, places a mark, and settles one.
//!
//! A public crate, beside `rh_kcas`, whose swaps take these steps by machines of their own. What is
//! promised holds whatever other threads do meanwhile.
//!
//! ```text
//! let Some(State::Undecided) = status(&table, &mut seat, desc) else { return Ok(()) };
//! let Some(2..) = count_entries(&table, &mut seat, desc) else { return Ok(()) };
//! if let Placed::Mine = place(&table, &mut seat, desc, 1) {  // it stands in the cell of entry 1
//!     let own = seat.placed.unwrap();
//!     settle(&table, &mut seat, own.piece.cell, own.mark);
//! }
//! ```
//!
//! `rh_kcas_tests` has this whole, with its conditions.
//!
//! Proved:
//!
//! - `peek_cell`, `status`: one read of a cell, or of how far a descriptor is, and what the worker
//!   knows by it. `status` answers no state just where the control was of a later descriptor of
//!   that worker, and `Unused` where it was of an earlier one.
//! - `count_entries` is for a descriptor that the worker opened or whose control it read as not
//!   `Unused`: its length is read in the row, or the row says that it is of a later one.
//! - `place` is for an entry that the worker knows: of its own descriptor, or of one whose length
//!   it read. The entry is read in the row, and the mark row is written. Then the next own mark is
//!   put into the cell where the old value was found; else that other word is answered.
//! - `place` answers `Passed` just where the descriptor was stale; no mark was used then. `Spent`
//!   comes just where no mark was left, and nothing was done.
//! - `settle` of another worker's mark is a run of the stages of `Settling` of `rh_helping`: the
//!   row of the mark is read, then the control of its descriptor. The mark is swapped for that
//!   where it is undecided, else for the old value; the answer is the word that the swap found.
//! - `settle` answers no word just where the mark or its descriptor was stale; no swap
//!   was made then.
//! - `settle` of the own mark that was placed last: the same from the control on, by the old value
//!   that the seat keeps, also where it is stale. A swap is always made, and no own mark is
//!   unsettled then.
//! - Each call makes just the steps that are named here, in this order, and what it answers is the
//!   word that the step found: the table keeps the trace of them.
//! - The own mark that a seat keeps stays in each call but where `place` puts the next one, and in
//!   those of `rh_kcas` too.
#![tactic(auto)]

mod calls;
mod making;
mod placing;
mod reading;
mod settling;

pub use calls::{Placed, count_entries, peek_cell, place, settle, status};
pub use rh_shared::{OwnMark, Seat, Table};
