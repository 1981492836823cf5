//! The player with which a play begins.

ghost use Rattle.std.specs.Prelude.{◌≡◌, ◌^◌, ◌<◌, All, IfErr, IfOk, None, Some, length};
ghost use Rattle.std.specs.FinSet as set;
ghost use Rattle.rh_layout.specs.Key.{IsBits, IsKey};
ghost use Rattle.rh_layout.specs.Layout.{Layout};
ghost use Rattle.rh_interleaving.specs.Start.{IsRooms, MakesPlayer, are_keys};
ghost use Rattle.rh_play_run.specs.Beginning.{BeginsPlay, IsRefusedStart, IsBlank, StartsOn};
ghost use Rattle.rh_play_run.specs.Beginning.{held_fault, player_fault};

use rh_edit::SeqSet;
use rh_interleaving::{PlayFault, Player, are_keys};
use rh_layout::MAX_BITS;
use rh_play_text::{Play, Work};
use rh_words::Rooms;
use std::alloc::{AllocError, Global};

/// Empty cells for the table of any play. They are taken before the play is known, so that no fault
/// of a play is told as want of memory for its table.
pub(crate) fn blank_cells(alloc: Global) -> Result<Vec<u64>, AllocError>
    ensures { IfOk result (λ blank. IsBlank blank.items) }
{
    let size = cells_in(MAX_BITS);
    let blank = vec![in alloc; 0; size]?;
    Ok(blank)
}

/// The player of a play, whose table is made of blank cells. The keys held are tested first.
pub(crate) fn begin(alloc: Global, blank: Vec<u64>, play: &Play) -> Result<Player, PlayFault>
    requires { IsBlank blank.items }
    ensures begins { IfOk result (λ player. BeginsPlay play.now player) }
    ensures refused { IfErr result (IsRefusedStart play.now) }
{
    let bits = play.bits.value as u32;
    let cells = held_cells(blank, bits, &play.held)?;
    player_on(alloc, &cells, play)
}

/// The layout of the set of the keys held.
fn held_cells(blank: Vec<u64>, bits: u32, keys: &[u64]) -> Result<Vec<u64>, PlayFault>
    requires bits { IsBits bits }
    requires blank { IsBlank blank.items }
    ensures fine { IfOk result (λ cells. held_fault bits keys.now ≡ None) }
    ensures layout { IfOk result (λ cells. Layout cells.items bits (set.from_list keys.now)) }
    ensures refused { IfErr result (λ fault. held_fault bits keys.now ≡ Some fault) }
{
    if !are_keys(keys) {
        return Err(PlayFault::BadKey);
    }
    if keys.len() >= cells_in(bits) {
        return Err(PlayFault::NoRoom);
    }
    Ok(set_of(blank, bits, keys).into_cells())
}

/// The set of the keys, in the first of the blank cells.
fn set_of(mut blank: Vec<u64>, bits: u32, keys: &[u64]) -> SeqSet
    requires bits { IsBits bits }
    requires blank { IsBlank blank.items }
    requires keys { All IsKey keys.now }
    requires few { length keys.now < 2 ^ bits }
    ensures bits { result.bits ≡ bits }
    ensures keys { result.keys ≡ set.from_list keys.now }
{
    blank.truncate(cells_in(bits));
    let mut set = SeqSet::from_cells(bits, blank);
    for key in keys {
        set.insert(*key);
    }
    set
}

/// How many cells a table has.
pub(crate) fn cells_in(bits: u32) -> usize
    requires { IsBits bits }
    ensures { result ≡ 2 ^ bits }
{
    1 << bits
}

/// The player of a play whose table has these cells at first.
fn player_on(alloc: Global, cells: &[u64], play: &Play) -> Result<Player, PlayFault>
    ensures { MakesPlayer (player_fault play.now cells.now)
        (StartsOn cells.now play.now play.now.work)
        result }
{
    let (bits, kind) = (play.bits.value as u32, play.kind);
    match (&play.work, play.rooms) {
        (Work::Pieces(pieces), None) => Player::new(alloc, bits, cells, kind, pieces),
        (Work::Pieces(pieces), Some(said)) => {
            let rooms = rooms_for(said);
            Player::with_rooms(alloc, bits, cells, kind, pieces, rooms)
        }
        (Work::Share { workers, keys }, None) => {
            Player::share(alloc, bits, cells, kind, *workers as usize, keys)
        }
        (Work::Share { workers, keys }, Some(said)) => {
            let rooms = rooms_for(said);
            Player::share_with_rooms(alloc, bits, cells, kind, *workers as usize, keys, rooms)
        }
    }
}

/// The rooms that a play says.
fn rooms_for(said: rh_play_text::PlayRooms) -> Rooms
    ensures same { result ≡ record { descriptors = said.descriptors; marks = said.marks } }
    ensures limits { IsRooms result }
{
    Rooms {
        descriptors: said.descriptors,
        marks: said.marks,
    }
}
