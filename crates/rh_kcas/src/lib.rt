//! Compare-and-swap of several cells of a table that threads share (Harris, Fraser and Pratt 2002),
//! and the tables themselves.
//!
//! A public crate: it hands on the tables and seats of `rh_shared` and the swap of `rh_swaps`, by
//! which phases go too, and adds what only a program of others calls. What is promised holds
//! whatever other threads do meanwhile.
//!
//! ```text
//! let (table, mut first) = make(alloc, shape, &cells)?;   // the seat of all workers of the shape
//! let second = split(&table, &mut first, 1);              // worker 0 has one, the others another
//! let both = [change(4, 0, 10), change(5, 10, 0)];        // in rising order of their cells
//! match kcas(rt, &table, &mut first, &both) {
//!     Outcome::Done => {}                // both cells changed, in one act
//!     Outcome::Failed { entry } => {}    // none did: the cell of this entry held another value
//!     Outcome::Spent => {}               // none did: no number or no mark is left before a wipe
//! }
//! join(&table, &mut first, second);
//! close(table, first, &mut cells);
//! ```
//!
//! `src/threads.rt` of `rh_kcas_tests` has two threads that do this, with all conditions.
//!
//! Proved:
//!
//! - `help`: the descriptor is noted as decided, or as over, or no mark is left. The worker is at
//!   rest after it, with the same own acts.
//! - `failures_tell`, `reads_tell`: after some first acts of all workers the entry's cell did not
//!   hold the old value, or the cell held the word that was read. Among these are all acts that the
//!   worker had made before the call, and no later one of it; they never get fewer.
//! - `own_changes_are_read`: a worker reads its own change back, unless another worker's act came
//!   between. `kcas` and `read` hand on what these laws ask for, as `rule_tells`.
//! - `are_entries`: exactly whether a descriptor may have these entries. `change`: the entry from
//!   one value to another.
//! - What is handed on: see the heads of `rh_shared` and `rh_swaps`.
//!
//! No contract says that a call which takes a `Wait` returns: `kcas`, `carry_out`, `help` and
//! `read`.
#![tactic(auto)]

mod entries;
mod helping;
mod laws;

pub use entries::{are_entries, change};
pub use helping::help;
pub use laws::{failures_tell, own_changes_are_read, reads_tell};
pub use rh_shared::{Seat, Table, claim, close, discard, join, make, split, wipe};
pub use rh_swaps::{Outcome, carry_out, kcas, open, read};
