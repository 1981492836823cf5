//! The player: one interleaving of the workers of a phase on one table, a step a turn.
//!
//! `rh_play_run` stands on it. What follows holds for every list of turns and rounds, whoever
//! chooses it.
//!
//! ```text
//! let mut player = Player::share(alloc, 3, &[0; 8], Kind::Insert, 2, &[9, 1])?;
//! let turn = player.turn(0);                 // Turn::Did with the kind of the step of worker 0
//! let mut cells = [0; 8];
//! if player.bits() == 3 {
//!     player.logical(&mut cells);            // what the cells stand for at this moment
//! }
//! let done = player.tally().read;            // how many keys are done
//! ```
//!
//! Proved:
//!
//! - `new`, `with_rooms`, `share`, `share_with_rooms`: a player whose workers have done nothing
//!   yet, each with its piece or all with one list. Else the first fault of the start, in order,
//!   and want of memory where there is no other.
//! - `turn`: just one step of the kind that it answers, by that worker; what is kept of the others
//!   stays.
//! - The three other answers of `turn` change nothing. It is `Finished` where all its keys are
//!   done, `Spent` where no number is left for a mark or a descriptor, and `NoSuchWorker` where
//!   there is none.
//! - A worker that gave up its key makes no further step in the round. The answer of each key
//!   that is done follows from its act or its read of that key.
//! - `trace`: the same, and of a step the part that it touched, the word that it found and the word
//!   that it left.
//! - `next_round`: begins a round exactly where no worker has a step left, with the cells as they
//!   stand, and each spent worker begins its key again. Else it changes nothing.
//! - `all_finished`, `all_stopped`, `bits` and `are_keys` are exact. `raw`: the word of the cell.
//! - `logical`: at each moment the layout of the first set changed by the acts so far, in which
//!   each key that is done shows. Where all workers are finished, it is that of the set which one
//!   worker makes of the whole list.
//! - `tally`: at each moment exactly the number of keys that are done, with their answers.
//!   Where keys are added or removed, these are as many as the acts by which they are done that
//!   change a cell. Where all workers are finished, it is the tally of one worker.
//! - `answer` of a worker's piece, `answer_at` of a shared list: where keys are asked for, there is
//!   one just where the key at this position is done. It says whether the first set held the key.
//!   In every other case there is none.
//!
//! Not proved: which of the allowed steps a turn makes, and that a play comes to an end.
//! `tests/plays` plays the worked plays to the byte.
#![tactic(auto)]

mod fault;
mod made;
mod player;
mod set_up;
mod start;
mod turns;

pub use fault::PlayFault;
pub use player::Player;
pub use start::are_keys;
