//! The words of a table that several workers share, and each kind of step of one worker as a call
//! on a slice of such words.
//!
//! A public crate: it hands on `rh_words`, on which the crates of the shared table stand, and of
//! `rh_rule` the rule that each step keeps. It adds the calls, which none of these needs.
//!
//! ```text
//! let shape = Shape { bits: 3, workers: 2, keys: 0, rooms: Rooms::usual() };
//! shape.words()                                          // 73
//! shape.index(Part::EntryOld { worker: 1, entry: 0 })    // 44
//! let mut words = [0u64; 73];                            // no key, and nothing opened
//! let mut side = Side::new(1, &[0; 8]);                  // of worker 1: it takes no memory
//! let number = claim_key(&shape, &mut words, &mut side); // 0, and the counter is 1
//! ```
//!
//! Proved:
//!
//! - `write_word`, `open_desc`, `read_word`, `place_mark`, `settle_mark`, `decide_desc`,
//!   `release_cell` and `claim_key`: on the condition of its kind, just this step, the word that it
//!   found, and what is kept of the worker after it.
//! - `each_step_keeps`, `a_wipe_keeps`: each allowed step of any worker keeps `RowRule`, and so
//!   does a wipe.
//! - What is handed on else: see the heads of `rh_words` and `rh_rule`.
#![tactic(auto)]

mod kinds;

pub use kinds::{
    claim_key, decide_desc, open_desc, place_mark, read_word, release_cell, settle_mark, write_word,
};
pub use rh_rule::{RowRule, TableKey, a_wipe_keeps, each_step_keeps};
pub use rh_words::{
    Effect, Entry, First, Known, MAX_ROOM, MAX_WORKERS, Part, Piece, Reading, Ref, Request, Rooms,
    Shape, Side, StepKind, decided_word, desc_word, fixed_numbers, make_step, mark_word, one_part,
};
