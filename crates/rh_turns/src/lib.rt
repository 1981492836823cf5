//! The turns of the workers of a phase on one table: one step of one worker a turn, in any
//! interleaving.
//!
//! A worker has a piece of a list of keys, or claims its positions; a game is a table with such
//! workers. `rh_interleaving` stands on it.
//!
//! Proved:
//!
//! - `take_turn`: one step of just the kind that it answers, on the next key of a worker that is
//!   not spent. Or it is one Claim, where the worker is at no key. What it counts, and puts at
//!   the key's position, is the answer of the step, and what the table records is of this step.
//! - `take_turn` makes no step where all keys of the worker are done or it is spent, and then
//!   nothing is changed. It is spent only where no number is left for a mark, or none for a
//!   descriptor.
//! - `logical_value`: what a cell stands for, as the words tell it. Of a mark its worker tells it,
//!   and of a stale descriptor the worker that holds the cell. `Hand::is_finished`
//!   is exact.
//! - `games_go_on`: what is so of a game is so at its start, and stays so in each turn of any
//!   worker. It stays so in each further round, which begins where no worker has a step left.
//! - `games_make`: at each moment the cells stand for the layout of the set after the keys of the
//!   acts so far. Each worker counts the keys that it has done. Each key that is asked for and done
//!   is answered by whether the first set holds it.
//! - `games_make`, at the end: where all keys are done, the cells, the tally and the answers are
//!   those of one worker that does the whole list.
#![tactic(auto)]

mod hand;
mod laws;
mod logical;
mod turning;

pub use hand::{Hand, Share};
pub use laws::{games_go_on, games_make};
pub use logical::logical_value;
pub use turning::{Turn, take_turn};
