//! A table that threads share, the seats of its workers, and the single steps that a seat makes on
//! its words.
//!
//! `rh_swaps`, `rh_rdcss` and `rh_threads` stand on it, and `rh_kcas` hands on the tables and
//! seats. What is promised holds whatever other threads do meanwhile.
//!
//! Proved:
//!
//! - `make` and `own_word` of a worker's seat at the table: just the step that is asked for, as one
//!   atomic step, with what may be relied on then. It goes into the seat's trace with the word that
//!   it found. The word of an own row is answered as it was written.
//! - `make` of a table: it has these cells, and the seat of all workers, who have done nothing; or
//!   the refusal of a growth. `split`, `join`: what is kept of each worker goes with its seat.
//! - `wipe`: all rows are unused again, and a round begins with the cells. `close`: the values of
//!   the cells. In both the cells are those at the start of the round, changed by all acts since,
//!   and the workers' traces are all steps of the round, in one order; such values there are too
//!   where `discard` frees the table.
//! - `claim`: the number that one Claim found, or that it found the end. The worker is at rest
//!   after it.
#![tactic(auto)]

mod claiming;
mod ends;
mod on_table;
mod seat;
mod seats;
mod steps;
mod table;
mod wiping;

pub use claiming::claim;
pub use ends::{close, discard, make};
pub use on_table::OnTable;
pub use seat::{OwnMark, Seat, unused_side};
pub use seats::{join, split};
pub use table::{Inner, Table};
pub use wiping::wipe;
