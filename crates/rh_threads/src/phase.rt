//! A phase, worked out by the workers of a table of its own, or why it was not.

ghost use Rattle.std.specs.Prelude.{◌≡◌, All, length};
ghost use Rattle.rh_layout.specs.Key.{IsKey};

use crate::crew::{Crew, Starts};
use crate::fault::Fault;
use crate::gate::Gate;
use crate::hands::{all_changed, mark_all, new_hands};
use crate::rounds::rounds;
use rh_ledger::{Kind, Tally, tally_by};
use rh_shared::{Table, close, discard, make};
use rh_words::{Rooms, Shape};
use std::alloc::Global;
use std::sync::Wait;
use std::thread::Threads;

/// A list of keys that all workers of a table of this shape share, and what they do with each.
#[derive(Drop)]
pub struct Phase<'a> {
    pub shape: Shape,
    pub kind: Kind,
    pub keys: &'a [u64],
    ghost list: { shape.keys ≡ length keys.now },
    ghost keys_are: { All IsKey keys.now },
}

impl<'a> Phase<'a> {
    ghost use Rattle.std.specs.Prelude.{◌≡◌, ◌≢◌, ◌≤◌, All, IfOk, OnErr, length};
    ghost use Rattle.rh_layout.specs.Key.{IsBits, IsKey};
    ghost use Rattle.rh_layout.specs.Layout.{IsLayout, keys_of};
    ghost use Rattle.rh_words.specs.declared.limits.TheConstants.{MAX_ROOM};
    ghost use Rattle.rh_ledger.specs.Phase.{looked_up};
    ghost use Rattle.rh_threads.specs.Crew.{HeedsInPhase};
    ghost use Rattle.rh_threads.specs.Made.{HasChanged, HasRoomFor, IsWorkedOut, IsWorkers};
    ghost use Rattle.rh_threads.specs.Made.{markable, opened};

    /// By so many workers at a table of 2 to the power of `bits` cells, where each has these rooms
    /// in a round.
    pub fn new(bits: u32, workers: usize, rooms: Rooms, kind: Kind, keys: &'a [u64]) -> Phase<'a>
        requires bits { IsBits bits }
        requires workers { IsWorkers workers }
        requires rooms { (rooms.descriptors ≤ MAX_ROOM) × (rooms.marks ≤ MAX_ROOM) }
        requires keys { All IsKey keys.now }
        ensures bits { result.shape.bits ≡ bits }
        ensures workers { result.shape.workers ≡ workers }
        ensures rooms { result.shape.rooms ≡ rooms }
        ensures kind { result.kind ≡ kind }
        ensures keys { result.keys.now ≡ keys.now }
    {
        let shape = Shape {
            bits,
            workers,
            keys: keys.len() as u64,
            rooms,
        };
        Phase { shape, kind, keys }
    }

    /// Inserts or removes the keys.
    pub fn change<R: Threads + Wait + Sync, G: Gate + Sync, S: Starts + Sync>(
        &self,
        rt: &R,
        alloc: Global,
        cells: &mut Vec<u64>,
        gate: &G,
        starts: &S,
    ) -> Result<Tally, Fault>
        requires kind { self.now.kind ≢ Kind.Ask }
        requires room { HasRoomFor self.now cells.old.items }
        ensures changed { IfOk result (HasChanged self.now cells.old.items cells.new.items) }
        ensures unchanged { OnErr result (cells.new.items ≡ cells.old.items) }
        ensures starts { HeedsInPhase (S.allows starts.now) self.now.shape.workers result }
    {
        let (table, crew) = self.work_out(rt, alloc, cells.as_slice(), gate, starts)?;
        let Crew { seat, hands } = crew;
        close(table, seat, cells.as_mut_slice());
        Ok(tally_by(self.kind, self.keys.len() as u64, all_changed(hands)))
    }

    /// Looks the keys up, and answers in list order which are there.
    pub fn ask<R: Threads + Wait + Sync, G: Gate + Sync, S: Starts + Sync>(
        &self,
        rt: &R,
        alloc: Global,
        cells: &[u64],
        gate: &G,
        starts: &S,
    ) -> Result<Vec<bool>, Fault>
        requires kind { self.now.kind ≡ Kind.Ask }
        requires room { HasRoomFor self.now cells.now }
        ensures found { IfOk result (λ found.
            found.items ≡ looked_up (keys_of cells.now) self.now.keys.now) }
        ensures starts { HeedsInPhase (S.allows starts.now) self.now.shape.workers result }
    {
        let mut found = vec![in alloc; false; self.keys.len()]?;
        let (table, crew) = self.work_out(rt, alloc, cells, gate, starts)?;
        let Crew { seat, hands } = crew;
        discard(table, seat);
        mark_all(hands, found.as_mut_slice());
        Ok(found)
    }

    /// Makes the table of the cells, and has all its workers do the keys, up to where all are at
    /// rest. All memory is taken before the first worker starts.
    fn work_out<R: Threads + Wait + Sync, G: Gate + Sync, S: Starts + Sync>(
        &self,
        rt: &R,
        alloc: Global,
        cells: &[u64],
        gate: &G,
        starts: &S,
    ) -> Result<(Table, Crew), Fault>
        requires layout { IsLayout self.now.shape.bits cells.now }
        ensures worked { IfOk result (λ r. IsWorkedOut (opened self.now cells.now) r.0 r.1) }
        ensures starts { HeedsInPhase (S.allows starts.now) self.now.shape.workers result }
    {
        let hands = new_hands(alloc, &self.shape, self.kind, self.positions())?;
        let (table, seat) = make(alloc, self.shape, cells)?;
        let crew = Crew { seat, hands };
        let crew = rounds(rt, &table, crew, self.keys, gate, starts)?;
        Ok((table, crew))
    }

    /// How many positions of the list have a mark, which says that the key was found.
    fn positions(&self) -> usize
        ensures { result ≡ markable self.now.kind (length self.now.keys.now) }
    {
        match self.kind {
            Kind::Ask => self.keys.len(),
            Kind::Insert | Kind::Remove => 0,
        }
    }
}
