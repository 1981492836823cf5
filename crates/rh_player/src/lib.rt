//! One given interleaving of the workers of a phase, a step a turn: a `Player`, whose turns the
//! caller orders; and plays, which are texts of such orders.
//!
//! ```text
//! let mut player = Player::new(alloc, 3, &[0; 8], Kind::Insert, &pieces)?;
//! while player.turn(0) != Turn::Did(StepKind::Decide) {}        // up to its first act
//! let word = player.raw(home(3, 17));                           // what stands in a cell now
//! run_play(alloc, &mut reader, &mut writer)?;                   // a text of turns, as it is told
//! ```
//!
//! It hands on what `rh_interleaving`, `rh_play_text` and `rh_play_run` do, with their contracts. A
//! turn makes at most one step of the protocol on words, and at each moment each key that is done
//! shows in the set.
#![tactic(auto)]

pub use rh_interleaving::{PlayFault, Player};
pub use rh_ledger::{Kind, Tally};
pub use rh_play_run::{
    DrawFault, MAX_TOLD, PlayRunFault, TellFault, Telling, draw_play, run_play, tell_play,
};
pub use rh_play_text::{
    Bits, Order, Play, PlayRooms, PlayTextFault, PlayTextKind, Work, parse_play,
};
pub use rh_recorder::Touched;
pub use rh_turns::Turn;
pub use rh_words::{Rooms, StepKind};
