//! The rule of a shared table, which each step of a worker keeps. Its words, and what is kept of
//! its workers, represent a world of `rh_world` that meets the rule of worlds.
//!
//! `rh_order` reads the acts off it, `rh_carrier` gives each worker what it relies on, and
//! `rh_shared` makes it the rule of a table of `atomic_table`.
//!
//! Proved:
//!
//! - `each_step_keeps`: each allowed step of any worker on the words keeps the rule, for up to 16
//!   workers. The world after it is the one that the step makes of the world before it.
//! - `workers_rely`, `find`: what a step finds, as that a reference is of the table.
//! - `workers_rely`, `sound`: what a worker noted fits the table and has no two answers to one
//!   question. Its own row, while it is of its last descriptor, says the entries that are kept of
//!   that one.
//! - `workers_rely`, `sound`: a descriptor failed at an entry that it has, and one was withdrawn
//!   only where no mark is left. Reads were kept with numbers up to that of the worker's next
//!   descriptor.
//! - `tells`: at any moment the acts stand in one order, and each kept read and each failed
//!   descriptor has its prefix of them. A worker's own acts are those of its descriptors that
//!   succeeded, and the claimed numbers are shared out.
//! - `tells`, of an own descriptor noted as failed at an entry: it has that entry, and after its
//!   prefix the cell did not hold the old value.
//! - `rests`: where all workers are at rest, each cell is plain and is the opening cell changed act
//!   by act. A worker's own acts are those of its descriptors that it noted as succeeded.
//! - `table_starts`, `a_wipe_keeps`: a table starts under the rule with plain cells. So does a new
//!   round after a wipe, each of whose stores keeps a rule of its own.
//! - `RowRule`, `starts`, `steps_are_allowed`, `views_split_and_join`, `all_may_wipe`,
//!   `close_sees`: the same as the rule of a table of `atomic_table`. It may start; its seats may
//!   make each allowed step, and may be split and joined.
//! - A table keeps of each worker the trace of its steps: the word that each touched, what it found
//!   there and what it left. Only an atomic step changes it. All traces of a round are parts of one
//!   order of steps, from the opening cells to the words that stand: `Round` of `RuleHolds`.
//! - `looks_are_allowed`: a seat may look at a word of its own rows, which is no step.
//! - The seat of all workers may wipe such a table. `close_sees` says what it knows at a wipe and
//!   at the close.
#![tactic(auto)]

mod laws;
mod rule;
mod seats;

pub use laws::{a_wipe_keeps, each_step_keeps, rests, table_starts, tells, workers_rely};
pub use rule::{RowRule, Sitter, TableKey};
pub use seats::{
    all_may_wipe, close_sees, looks_are_allowed, starts, steps_are_allowed, views_split_and_join,
};
