//! Setting up a player: its keys are dealt, and its table and workers made.

ghost use Rattle.std.specs.Prelude.{◌≡◌, ◌<◌, All, IfOk, length};
ghost use Rattle.rh_layout.specs.Key.{IsKey};
ghost use Rattle.rh_layout.specs.Layout.{IsLayout, keys_of};
ghost use Rattle.rh_acts.specs.Workers.{LeavesRoom};
ghost use Rattle.rh_turns.specs.Game.{ArePieces, shares_of};
ghost use Rattle.rh_interleaving.specs.SetUp.{AreDealt, AreNew, AreShares, ClaimsAll};
ghost use Rattle.rh_interleaving.specs.Start.{StartsWith, keys_of_pieces};

use crate::player::Player;
use rh_ledger::Kind;
use rh_recorder::Recorder;
use rh_tagword::plain_words;
use rh_turns::{Hand, Share};
use rh_words::Shape;
use rh_worker::Worker;
use std::alloc::{AllocError, Global};

/// The keys of all pieces, and for each piece its part of them.
pub(crate) fn deal(alloc: Global, pieces: &[Vec<u64>]) -> Result<(Vec<u64>, Vec<Share>), AllocError>
    ensures keys { IfOk result (λ dealt. dealt.0.items ≡ keys_of_pieces pieces.now) }
    ensures parts { IfOk result (λ dealt. ArePieces 0 dealt.1.items (length dealt.0.items)) }
    ensures each { IfOk result (λ dealt. AreDealt dealt.0.items dealt.1.items pieces.now) }
{
    let mut keys = Vec::new(alloc);
    let mut shares = Vec::new(alloc);
    for piece in pieces {
        let first = keys.len();
        keys.extend_from_slice(piece)?;
        let end = keys.len();
        shares.push(Share::Piece { first, end })?;
    }
    Ok((keys, shares))
}

/// For each worker, that it claims its keys.
pub(crate) fn share_out(alloc: Global, workers: usize) -> Result<Vec<Share>, AllocError>
    ensures count { IfOk result (λ shares. length shares.items ≡ workers) }
    ensures all { IfOk result (λ shares. All ClaimsAll shares.items) }
{
    let share = Share::Claims {
        last: 0,
        ended: false,
    };
    Ok(vec![in alloc; share; workers]?)
}

/// A player of workers with these shares of the keys.
pub(crate) fn set_up(
    alloc: Global,
    kind: Kind,
    shape: Shape,
    cells: &[u64],
    keys: Vec<u64>,
    shares: &[Share],
) -> Result<Player, AllocError>
    requires workers { length shares.now ≡ shape.workers }
    requires opening { IsLayout shape.bits cells.now }
    requires room { LeavesRoom kind shape.bits (keys_of cells.now) keys.items }
    requires keys { All IsKey keys.items }
    requires dealt { AreShares shape shares.now (length keys.items) }
    ensures shape { IfOk result (λ player. player.shape ≡ shape) }
    ensures start { IfOk result (StartsWith kind cells.now keys.items) }
    ensures shares { IfOk result (λ player. shares_of player.hands ≡ shares.now) }
{
    let opening = cells.to_vec(alloc)?;
    let room = shape.words();
    let mut words = plain_words(alloc, room, cells)?;
    let hands = new_hands(alloc, &shape, kind, &words, shares)?;
    words.resize(room, 0)?;
    let answers = vec![in alloc; None; keys.len()]?;
    Ok(Player {
        kind,
        shape,
        opening,
        table: Recorder { words, last: None },
        keys,
        answers,
        hands,
    })
}

/// A worker for each share. The cells are given as words.
fn new_hands(
    alloc: Global,
    shape: &Shape,
    kind: Kind,
    words: &[u64],
    shares: &[Share],
) -> Result<Vec<Hand>, AllocError>
    ensures shares { IfOk result (λ hands. shares_of hands.items ≡ shares.now) }
    ensures new { IfOk result (λ hands. AreNew kind shape.now words.now hands.items) }
{
    let mut hands = Vec::new(alloc);
    for number in 0..shares.len() {
        let worker = Worker::new(alloc, shape, kind, number, words)?;
        hands.push(Hand {
            worker,
            share: shares[number],
            done: 0,
            changed: 0,
        })?;
    }
    Ok(hands)
}
