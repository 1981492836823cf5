//! How one worker does the keys of its list, step by step (Robin Hood tables on a swap of several
//! cells: Kelly, Pearlmutter and Maguire 2018). It scans the cells from a key's home on, changes
//! those that the key asks for by a descriptor of its own, and helps the descriptors that it meets.
//!
//! `rh_turns` runs such a worker a step a turn; `rh_threads` uses `decide` alone, and goes by
//! the calls of `rh_swaps`.
//!
//! Proved:
//!
//! - `decide`: what the cells from a key's home on were seen to hold makes of the key. It is done,
//!   with this answer; or an act is asked for, whose entries were written and which does the key;
//!   or more cells have to be seen.
//! - `Worker::step`: one allowed step of the kind that it answers, and how the key goes on with it.
//!   A descriptor is opened whose act does the key, one is closed that failed or that succeeded, or
//!   none.
//! - A key counts as done only by an own act that succeeded. To insert or to ask it also does by
//!   what was read since it was begun, of the cells from its home on, in their order.
//! - The answer of a key is what the act or the look-up says. A worker is spent only where no
//!   number is left for a mark, or none for a descriptor. A step takes no memory.
//! - `Worker::claim`: one Claim. `begin`, `begin_round`, `is_idle`, `is_spent`, `owed_cell`,
//!   `Worker::new`: as their comments say.
#![tactic(auto)]

mod deciding;
mod laws;
mod scan_buffer;
mod scanning;
mod stage;
mod swapping;
mod worker;

pub use deciding::{Decision, decide};
pub use laws::keys_are_done;
pub use scan_buffer::ScanBuffer;
pub use stage::{KeyStage, Plan};
pub use worker::{Stepped, Worker};
