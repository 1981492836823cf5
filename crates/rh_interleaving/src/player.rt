//! What a player holds.

use rh_ledger::Kind;
use rh_recorder::Recorder;
use rh_turns::Hand;
use rh_words::Shape;
use std::marker::Model;

/// Workers that do the keys of a phase on one table, a step a turn. Contracts see the table, the
/// keys, and of each worker what it has done.
#[derive(Drop)]
pub struct Player {
    pub(crate) kind: Kind,
    pub(crate) shape: Shape,
    /// What the cells held when the player was made: the promises of its calls speak of it.
    pub(crate) opening: Vec<u64>,
    pub(crate) table: Recorder,
    /// The keys of all workers, in one list, and the answer of each that is done.
    pub(crate) keys: Vec<u64>,
    pub(crate) answers: Vec<Option<bool>>,
    pub(crate) hands: Vec<Hand>,
}

impl Model for Player {
    ghost use Rattle.rh_turns.specs.Game.{Game, Plays};

    ghost Value = { Game };

    ghost view = { λ p. record {
      kind = p.kind;
      shape = p.shape;
      opening = p.opening.items;
      words = p.table.words.items;
      keys = p.keys.items;
      answers = p.answers.items;
      hands = p.hands.items;
    } };

    ghost invariant = { λ p. Plays (record {
      kind = p.kind;
      shape = p.shape;
      opening = p.opening.items;
      words = p.table.words.items;
      keys = p.keys.items;
      answers = p.answers.items;
      hands = p.hands.items;
    }) };
}
