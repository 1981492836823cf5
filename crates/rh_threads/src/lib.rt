//! Phases with several workers: a list of keys that are all inserted, all removed or all looked up
//! in one table. Threads claim the keys and change the table by swaps of several cells (Robin Hood
//! tables on K-CAS: Kelly, Pearlmutter and Maguire 2018).
//!
//! `rhset run --workers N` goes by it where N is more than 1, and `rh_planner` hands `Threads` on.
//! For who calls a single phase, `rh_phase` stands on it.
//!
//! Proved:
//!
//! - `Threads`: the `Runner` by 1 to 16 workers, which its type keeps. It counts the phases in
//!   which the fork handed on a refused start, and answers `NoThread` of those alone.
//! - `Phase::change`, `Phase::ask`: for every list of keys, the workers of a shape, and every
//!   interleaving in which the call returns, the cells are the one layout of the set after the
//!   keys. The tally and the answers are those of one worker that takes the keys in list order.
//!   Where there is an answer, none of the workers but the first is one whose start is forbidden.
//!   On a fault the cells are as they were.
//! - With any room for a worker that does for one key: where it is used up, a round more takes
//!   place. No worker stops in a round before that but at the end of the list.
//! - `KeyTask::try_key`, for the seat of one worker at rest: its own acts grew by just one, which
//!   does the key. Or they are as before and the cells that it read since, from the key's home on,
//!   tell the answer. Or it is not done, and the own acts are as before: another worker came
//!   between, which took a number of a descriptor; or as many cells as there is room for were read
//!   and decide nothing; or too little room is left. The seat is at rest again.
//! - A refused start is one that was forbidden, or that the system refused where it was not.
//! - `Gate::after` is called with the seat of one worker at rest, of which what is kept says that
//!   it did this key so, with this answer.
//!
//! Not proved: that a call returns, as each takes a `Wait`; that two workers work at once; and that
//! memory or a thread was refused only where it was told. `rh_phase_tests` tries these on real
//! threads.
#![tactic(auto)]

mod buffer;
mod crew;
mod doing;
mod fault;
mod gate;
mod hand;
mod hands;
mod key;
mod phase;
mod rounds;
mod seated;
mod threads;

pub use crew::{AllStart, RefusedStart, Starts};
pub use fault::Fault;
pub use gate::{Gate, OpenGate};
pub use key::{KeyTask, Tried};
pub use phase::Phase;
pub use threads::Threads;
