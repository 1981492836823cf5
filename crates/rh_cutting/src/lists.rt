//! All lists are cut into parts, piece beside piece.

ghost use Rattle.std.specs.Thread.{IsSync};
ghost use Rattle.std.specs.Prelude.{All, IfOk, map};
ghost use Rattle.std.specs.List.{flat_map};
ghost use Rattle.rh_layout.specs.Key.{IsKey};
ghost use Rattle.rh_cutting.specs.Pieces.{keys_in};
ghost use Rattle.rh_cutting.specs.Borders.{IsCut};
ghost use Rattle.rh_cutting.specs.Cut.{AreLists};

use crate::borders::{Borders, borders_for, count_keys};
use crate::cut::cut_piece;
use crate::list::KeyList;
use crate::parts::Parts;
use crate::whole::CutLists;
use rh_forks::{Team, both};
use std::alloc::{AllocError, Global};
use std::thread::Threads;

/// Each of the pieces, cut.
fn cut_each(alloc: Global, borders: &Borders, pieces: &[Vec<u64>]) -> Result<Vec<Parts>, AllocError>
    requires { All (λ k. All IsKey k.items) pieces.now }
    ensures { IfOk result (λ v. IsCut borders.now.values.items
        (flat_map (λ k. k.items) pieces.now) v.items) }
{
    let mut cut = Vec::with_capacity(alloc, pieces.len())?;
    for piece in pieces {
        let parts = cut_piece(alloc, borders, piece)?;
        cut.push(parts)?;
    }
    Ok(cut)
}

/// The same by a team: each half of its workers cuts about half of the pieces, while the caller
/// waits. Where no thread can be started, one half is cut after the other.
#[cycle(halves)]
fn cut_pieces<T: Threads + Sync>(
    team: &Team<'_, T>,
    borders: &Borders,
    pieces: &[Vec<u64>],
) -> Result<Vec<Parts>, AllocError>
    requires { All (λ k. All IsKey k.items) pieces.now }
    ensures { IfOk result (λ v. IsCut borders.now.values.items
        (flat_map (λ k. k.items) pieces.now) v.items) }
{
    let Team { rt, alloc, workers } = *team;
    let Some((first, others)) = workers.halves() else {
        return cut_each(alloc, borders, pieces);
    };
    let at = pieces
        .len()
        .div_ceil(workers.count)
        .saturating_mul(first.count)
        .min(pieces.len());
    let (front, back) = pieces.split_at(at);
    let theirs = move || -> Result<Vec<Parts>, AllocError>
        requires { IsSync T.row × All (λ k. All IsKey k.items) front.now }
        ensures { IfOk result (λ v. IsCut borders.entry.now.values.items
            (flat_map (λ k. k.items) front.entry.now) v.items) }
    {
        let half = Team {
            rt,
            alloc,
            workers: first,
        };
        cut_pieces(&half, borders, front)
    };
    let ours = move || -> Result<Vec<Parts>, AllocError>
        requires { IsSync T.row × All (λ k. All IsKey k.items) back.now }
        ensures { IfOk result (λ v. IsCut borders.entry.now.values.items
            (flat_map (λ k. k.items) back.entry.now) v.items) }
    {
        let half = Team {
            rt,
            alloc,
            workers: others,
        };
        cut_pieces(&half, borders, back)
    };
    let (before, behind) = both(rt, theirs, ours);
    let mut cut = before?;
    let mut rest = behind?;
    cut.append(&mut rest)?;
    Ok(cut)
}

/// All lists, cut. Each is dropped as soon as it is.
pub fn cut_lists<T: Threads + Sync>(
    team: &Team<'_, T>,
    lists: Vec<KeyList>,
) -> Result<CutLists, AllocError>
    ensures { IfOk result (λ cut. AreLists cut (map keys_in lists.items)) }
{
    let keys = count_keys(&lists);
    let borders = borders_for(team.alloc, &lists, keys)?;
    let mut cut = Vec::with_capacity(team.alloc, lists.len())?;
    for list in lists {
        let pieces = cut_pieces(team, &borders, list.pieces())?;
        cut.push(pieces)?;
    }
    Ok(CutLists {
        borders,
        lists: cut,
        keys,
    })
}
