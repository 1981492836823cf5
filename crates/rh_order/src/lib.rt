//! Runs of a table: how far its workers have come with their keys, at each moment, over its rounds,
//! and what they have made of the set at the end.
//!
//! These are laws, in any interleaving of the workers' steps. They join `rh_rule`, the rule of a
//! table of words, to `rh_acts`, what acts make of a set; `rh_worker`, `rh_threads` and `rh_turns`
//! stand on them. What the workers of a table did so far is one list of acts on the values of its
//! cells, its history.
//!
//! Proved of histories:
//!
//! - `order_of_acts`: at any moment the acts of the table's world meet their old values one after
//!   the other, from the opening cells to what the cells stand for now. Each is of a worker of the
//!   table, with the entries of a descriptor that it opened.
//! - `order_of_acts`, of reads: what was kept as read of a cell was true after some first acts.
//! - `at_rest`: where all workers are at rest, a worker's own acts are those that it has finished,
//!   and the cells hold what all acts leave. `plain_words`: plain words and what cells hold are one
//!   to one.
//! - `own_acts`: the acts that a worker has finished grow by the act of each descriptor that it
//!   closes and noted as succeeded, in this order, and by nothing else.
//! - `reads`: a plain word that is read in a cell while nothing is open is kept as read, and stays
//!   so in each step.
//! - `rounds`: a round begins with no act, no read, and the cells that the round before left. The
//!   acts and the reads of two rounds are those of one list.
//!
//! Proved of runs:
//!
//! - `worker_goes_on`: what a worker has done of its keys grows by its own steps alone, key by key.
//!   It stays in a further round.
//! - `run_goes_on`: a run starts with nothing done. It goes on with each allowed step of a worker
//!   at one of its keys, with each Claim, and with each further round, begun where all are at rest.
//!   Or it is gathered from its workers.
//! - `only_success_changes`: no step changes what a cell stands for, but a Decide that lets a
//!   descriptor succeed. So a stale helper changes nothing, whatever it still does for stale
//!   descriptors.
//! - `run_stands`, of words: what each cell stands for is said by the words, but of a mark by the
//!   old value that its worker noted, and of a stale descriptor by the worker that holds the cell.
//! - `run_stands`, of keys: at each moment the cells stand for the layout of the set after the keys
//!   of the acts so far. Each key that is done shows in it. Each key that was asked for is answered
//!   by whether the first set holds it.
//! - `no_key_is_lost`: whatever moves a run makes from its start, in a phase that has room for its
//!   keys, the cells stand for the layout of the set of the start, changed by keys that the workers
//!   were given. Each key that a worker has done shows in it.
//! - `run_ends`: where each worker has done its list and all are at rest, the cells are the layout
//!   that one worker makes of the joined lists. The tallies add up to its tally. So it is for one
//!   list that the workers claimed to its end.
#![tactic(auto)]

mod histories;
mod laws;

pub use histories::{at_rest, order_of_acts, own_acts, plain_words, reads, rounds};
pub use laws::{
    no_key_is_lost, only_success_changes, run_ends, run_goes_on, run_stands, worker_goes_on,
};
