//! Phases with several workers, as calls: a list of keys that are all inserted, all removed or all
//! looked up in one table, and a single key (Kelly, Pearlmutter and Maguire 2018).
//!
//! A public crate: `rhset` and `rh_planner` go by `Threads` of `rh_threads`, which has what these
//! calls do.
//!
//! ```text
//! let mut cells = SeqSet::new(alloc, 8)?.into_cells();             // 256 cells, and no key
//! let tally = change(rt, alloc, 4, Kind::Insert, 8, &mut cells, &keys, &OpenGate)?;
//! let found = ask(rt, alloc, 4, 8, &cells, &[17, 9], &OpenGate)?;  // in the order of the keys
//! ```
//!
//! Four workers make the cells, the tally and the answers that one worker makes. The cells have to
//! leave one free for each key that may be added, and one more; `rh_phase_tests` has phases whole.
//!
//! Proved:
//!
//! - `change`, `ask` hold for every list of keys, 1 to 16 workers and every interleaving in which
//!   the call returns. The cells are the one layout of the set after the keys. The tally and the
//!   answers are those of one worker that takes the keys in list order.
//! - Where want of memory or a refused thread is answered, the cells are as they were. `NoThread`
//!   is answered only where more than one worker was asked for.
//! - `change_with`, `ask_with`: the same, where a caller forbids the start of some threads, and
//!   with any room for a worker that does for one key. Where it is used up, a round more takes
//!   place. Where there is an answer, none of the workers but the first is one whose start is
//!   forbidden.
//! - `do_key`, for the seat of one worker at rest: its own acts grew by just one, which does the
//!   key. Or they are as before and the cells that it read since, from the key's home on, tell the
//!   answer.
//! - `do_key` answers none only where no number is left for a mark, or none for a descriptor; the
//!   own acts are as before then. The seat is at rest again.
//! - `Threads`, `Gate`, `Starts`: see the head of `rh_threads`.
//!
//! Not proved: that a call returns, as each takes a `Wait`; that two workers work at once; and that
//! memory or a thread was refused only where it was told. `rh_phase_tests` tries these on real
//! threads.
#![tactic(auto)]

mod key;
mod phase;

pub use key::do_key;
pub use phase::{ask, ask_with, change, change_with};
pub use rh_runner::PhaseFault;
pub use rh_threads::{AllStart, Gate, OpenGate, Starts, Threads};
