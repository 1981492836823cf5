//! What there is between the workers of a shared table, with no word and no place of a word, and
//! the rule that each allowed step keeps.
//!
//! These laws speak of cells, descriptors, marks, acts and a counter, and of what each worker has
//! done and knows. `rh_rule` shows that the words of a table represent such a world; every crate of
//! the shared table stands on that.
//!
//! Proved:
//!
//! - `each_step_keeps`: each allowed step of any worker keeps the rule, whatever the number of
//!   workers. Rows and claims are kept by themselves, acts by the rows, prefixes by rows and acts.
//!   The world after a step differs only as steps may.
//! - `runs_keep`: so does each run of allowed steps.
//! - `starts`, `new_round`: plain cells with new Sides and a counter at 0 meet the rule. Where all
//!   Sides are at rest, so does the world that begins anew with what the cells stand for.
//! - `acts`: the descriptors that succeeded stand in one order, each once and each worker's in the
//!   order of their numbers. Each met its old values. The cells stand for the opening cells,
//!   changed by one after the other.
//! - `at_rest`: where all Sides are at rest, each cell is plain and is the opening cell changed act
//!   by act. Every descriptor is decided.
//! - `prefixes`: of each failed descriptor and each kept read there is a number of acts, with
//!   exactly the worker's own acts before it among them. After these the entry's cell did not hold
//!   its old value, or the cell held the word.
//! - `prefixes`, too: along one worker's descriptors and reads these numbers never get smaller.
//! - `stale_descriptors`: a descriptor whose worker has opened a later one is decided, and stands
//!   in no cell if it succeeded. Where it stands, a Release puts the old value back.
//! - `claims`: the keys' numbers that Claims found are those below the counter, each found by one
//!   worker and once. The counter is at most the number of keys plus that of workers.
//! - `a_run_to_a_success`: the conditions can be met, by a run of two workers in which the helper
//!   decides.
#![tactic(auto)]

mod laws;

pub use laws::{
    a_run_to_a_success, acts, at_rest, claims, each_step_keeps, new_round, prefixes, runs_keep,
    stale_descriptors, starts,
};
