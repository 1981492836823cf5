//! Players that are made.

ghost use Rattle.std.specs.Prelude.{◌≡◌, ◌^◌, ◌≤◌, ◌<◌, ℕ, IfOk, List, None, Some, MatchResult, length};
ghost use Rattle.rh_layout.specs.Key.{IsBits};
ghost use Rattle.rh_layout.specs.Layout.{IsLayout};
ghost use Rattle.rh_ledger.specs.Phase.{most_added};
ghost use Rattle.rh_interleaving.specs.Made.{cut};
ghost use Rattle.rh_interleaving.specs.Start.{HasSizes, IsRooms, MakesPlayer, StartsPieces, StartsShared};
ghost use Rattle.rh_interleaving.specs.Start.{are_keys, keys_of_pieces, start_fault, table_fault};
ghost use Rattle.rh_words.specs.Parts.{usual_rooms};
ghost use Rattle.rh_words.specs.declared.limits.TheConstants.{MAX_WORKERS};

use crate::fault::PlayFault;
use crate::player::Player;
use crate::set_up::{deal, set_up, share_out};
use rh_layout::{MAX_KEY, is_layout, key_in};
use rh_ledger::Kind;
use rh_words::{MAX_WORKERS, Rooms, Shape};
use std::alloc::Global;

impl Player {
    /// A player of workers that each have a piece of the keys, with the usual rooms.
    pub fn new(
        alloc: Global,
        bits: u32,
        cells: &[u64],
        kind: Kind,
        pieces: &[Vec<u64>],
    ) -> Result<Player, PlayFault>
        ensures { MakesPlayer
            (start_fault kind bits cells.now (length pieces.now) (keys_of_pieces pieces.now))
            (StartsPieces kind bits usual_rooms cells.now pieces.now) result }
    {
        Player::with_rooms(alloc, bits, cells, kind, pieces, Rooms::usual())
    }

    /// A player of workers that each have a piece of the keys, and these rooms in each round.
    pub fn with_rooms(
        alloc: Global,
        bits: u32,
        cells: &[u64],
        kind: Kind,
        pieces: &[Vec<u64>],
        rooms: Rooms,
    ) -> Result<Player, PlayFault>
        requires { IsRooms rooms }
        ensures { MakesPlayer
            (start_fault kind bits cells.now (length pieces.now) (keys_of_pieces pieces.now))
            (StartsPieces kind bits rooms cells.now pieces.now) result }
    {
        test_table(kind, bits, cells, pieces.len(), count_keys(pieces))?;
        if !are_all_keys(pieces) {
            return Err(PlayFault::BadKey);
        }
        let shape = shape_for(bits, pieces.len(), rooms, 0);
        let (keys, shares) = deal(alloc, pieces)?;
        Ok(set_up(alloc, kind, shape, cells, keys, &shares)?)
    }

    /// A player of workers that claim the keys of one list, with the usual rooms.
    pub fn share(
        alloc: Global,
        bits: u32,
        cells: &[u64],
        kind: Kind,
        workers: usize,
        keys: &[u64],
    ) -> Result<Player, PlayFault>
        ensures { MakesPlayer (start_fault kind bits cells.now workers keys.now)
            (StartsShared kind bits workers usual_rooms cells.now keys.now) result }
    {
        Player::share_with_rooms(alloc, bits, cells, kind, workers, keys, Rooms::usual())
    }

    /// A player of workers that claim the keys of one list, and have these rooms in each round.
    pub fn share_with_rooms(
        alloc: Global,
        bits: u32,
        cells: &[u64],
        kind: Kind,
        workers: usize,
        keys: &[u64],
        rooms: Rooms,
    ) -> Result<Player, PlayFault>
        requires { IsRooms rooms }
        ensures { MakesPlayer (start_fault kind bits cells.now workers keys.now)
            (StartsShared kind bits workers rooms cells.now keys.now) result }
    {
        test_table(kind, bits, cells, workers, keys.len())?;
        if !are_keys(keys) {
            return Err(PlayFault::BadKey);
        }
        let keys = keys.to_vec(alloc)?;
        let shares = share_out(alloc, workers)?;
        let shape = shape_for(bits, workers, rooms, keys.len() as u64);
        Ok(set_up(alloc, kind, shape, cells, keys, &shares)?)
    }
}

// ---- the tests

/// Tests the table and the workers. Where keys are inserted, each of so many keys may be new.
fn test_table(
    kind: Kind,
    bits: u32,
    cells: &[u64],
    workers: usize,
    keys: usize,
) -> Result<(), PlayFault>
    ensures layout { IfOk result (λ _. IsLayout bits cells.now) }
    ensures tests { (list : List ℕ) → keys ≡ cut (length list) → MatchResult result
        (λ _. table_fault bits cells.now workers (most_added kind list) ≡ None)
        (λ fault. table_fault bits cells.now workers (most_added kind list) ≡ Some fault) }
{
    if !is_layout(bits, cells) {
        return Err(PlayFault::NotALayout);
    }
    let full = cells.iter().filter(|value| key_in(**value).is_some());
    let more = if kind == Kind::Insert { keys } else { 0 };
    if cells.len() - full.count() <= more {
        return Err(PlayFault::NoRoom);
    }
    if workers < 1 || workers > MAX_WORKERS {
        return Err(PlayFault::BadWorkers);
    }
    Ok(())
}

/// Whether each is in the range of keys.
pub fn are_keys(keys: &[u64]) -> bool
    ensures { result ≡ are_keys keys.now }
{
    keys.iter().all(|key| *key <= MAX_KEY)
}

fn are_all_keys(pieces: &[Vec<u64>]) -> bool
    ensures { result ≡ are_keys (keys_of_pieces pieces.now) }
{
    for piece in pieces {
        if !are_keys(piece) {
            return false;
        }
    }
    true
}

/// How many keys the pieces have. A count past the greatest number stays there.
fn count_keys(pieces: &[Vec<u64>]) -> usize
    ensures { result ≡ cut (length (keys_of_pieces pieces.now)) }
{
    let mut count = 0usize;
    for piece in pieces {
        count = count.saturating_add(piece.len());
    }
    count
}

// ---- what is made

fn shape_for(bits: u32, workers: usize, rooms: Rooms, keys: u64) -> Shape
    requires bits { IsBits bits }
    requires workers { (0 < workers) × (workers ≤ MAX_WORKERS) }
    requires rooms { IsRooms rooms }
    requires keys { keys < 2 ^ 63 }
    ensures { HasSizes bits workers rooms keys result }
{
    Shape {
        bits,
        workers,
        keys,
        rooms,
    }
}
