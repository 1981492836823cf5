//! From one list of acts to the set: what the acts of several workers make of a Robin Hood table,
//! with no word and no thread.
//!
//! These laws take one list of acts, each of which meets its old values. `rh_order` finds such a
//! list in what the workers of a table have done; `rh_worker` plans its acts by the two functions.
//!
//! Proved:
//!
//! - `one_act`: an insert act makes of a layout that it meets the layout with the key, which was
//!   not there. A remove act makes the one without it, which was there. An absence act changes
//!   nothing, and the key was not there.
//! - `at_every_moment`: in a phase, finished or not, the cells are the layout of the set that the
//!   acts so far have made. The acts, or those that change a cell, count how it changed.
//! - `finished_phase`: where each worker has done its keys, the cells, the tally and the answers
//!   are those of the phase over the joined lists. Neither the number of workers nor the order of
//!   the acts matters.
//! - `rounds_and_shares`: so it is over several rounds, and for one list whose positions the
//!   workers claim.
//! - `lists_of_acts`, `done_keys`: how the list grows by an act, and what a worker has done by a
//!   key or a read.
//! - `insert_entries`, `remove_entries`: the entries of a key's act, exactly, from what a scan saw,
//!   round the end too. Else they answer that the key is there, or that more cells have to be seen.
#![tactic(auto)]

mod answer;
mod change;
mod entries;
mod laws;

pub use answer::{Insertion, Removal};
pub use entries::{insert_entries, remove_entries};
pub use laws::{
    at_every_moment, done_keys, finished_phase, lists_of_acts, one_act, rounds_and_shares,
};
