//! Lists in pieces, combined by several workers, as a list and written.

ghost use Rattle.std.specs.Prelude.{◌≤◌, All, IfOk};
ghost use Rattle.rh_layout.specs.Key.{IsKey};

use rh_bytes::{Counted, Progress};
use rh_combine_workers::*;
use rh_cutting::KeyList;
use rh_faulty::{FaultyWriter, Refusal};
use rh_forks::{Team, Workers};
use std::alloc::{AllocError, Global};
use std::test::*;

// How many numbers a piece has, and how many pieces a list.
const IN_A_PIECE: u64 = 20_000;

const PIECES: u64 = 5;

// So many multiples of a number from one on.
fn piece(alloc: Global, of: u64, first: u64) -> Result<Vec<u64>, AllocError>
    requires of { of ≤ 1000 }
    requires first { first ≤ 1000000 }
    ensures { IfOk result (λ v. All IsKey v.items) }
{
    let mut keys = Vec::new(alloc);
    for i in 0..IN_A_PIECE {
        keys.push((first + i) * of)?;
    }
    Ok(keys)
}

// The multiples of a number, in pieces.
pub(crate) fn list(alloc: Global, of: u64) -> Result<KeyList, AllocError>
    requires { of ≤ 1000 }
{
    let mut pieces = Vec::new(alloc);
    for number in 0..PIECES {
        pieces.push(piece(alloc, of, number * IN_A_PIECE)?)?;
    }
    Ok(KeyList::of(pieces))
}

// The multiples of 2 and of 3, 100,000 of each.
fn two_lists(alloc: Global) -> Result<Vec<KeyList>, AllocError> {
    let mut lists = Vec::new(alloc);
    for of in [2, 3] {
        lists.push(list(alloc, of)?)?;
    }
    Ok(lists)
}

// How often it was told, the last that was told, and whether that stands.
#[derive(Drop)]
pub(crate) struct Told {
    rounds: usize,
    parts: usize,
    of: usize,
    stands: bool,
}

impl Progress for Told {
    ghost stands = { λ told. told.stands };

    fn read(&mut self, _bytes: usize) {
        self.stands = true;
    }

    fn cut(&mut self) {
        self.stands = true;
    }

    fn clear(&mut self) {
        self.stands = false;
    }

    fn done(&mut self, parts: usize, of: usize) {
        self.rounds = self.rounds.saturating_add(1);
        self.parts = parts;
        self.of = of;
        self.stands = true;
    }
}

pub(crate) const NONE_TOLD: Told = Told {
    rounds: 0,
    parts: 0,
    of: 0,
    stands: false,
};

#[test]
fn the_same_text_by_any_number_of_workers(rt: HostRuntime) -> Result<(), Fail> {
    for (form, bytes) in [
        (Form::Lines, 214_818),
        (Form::Packed, 266_672),
        (Form::Count, 0),
    ] {
        for workers in [1usize, 3, 4] {
            let team = Team {
                rt: &rt,
                alloc: rt.alloc(),
                workers: Workers { count: workers },
            };
            let mut writer = Counted::new(Vec::new(rt.alloc()));
            let mut told = NONE_TOLD;
            let lists = two_lists(rt.alloc())?;
            let how = How::Intersect;
            let count = write_answer(&team, &how, form, lists, &mut writer, &mut told);
            assert_eq!(rt; count, Ok(33_334));
            assert_eq!(rt; writer.into_inner().len(), bytes, "{form:?}");
            assert!(rt; told.rounds > 0 && told.parts == told.of);
        }
    }
    Ok(())
}

#[test]
fn a_writer_that_fails(rt: HostRuntime) -> Result<(), Fail> {
    for refusal in [Refusal::Error, Refusal::TakesNothing] {
        let mut writer = Counted::new(FaultyWriter::new(rt.alloc(), 1, refusal));
        let mut told = NONE_TOLD;
        let lists = two_lists(rt.alloc())?;
        let team = Team {
            rt: &rt,
            alloc: rt.alloc(),
            workers: Workers { count: 2 },
        };
        let how = How::Union;
        let count = write_answer(&team, &how, Form::Lines, lists, &mut writer, &mut told);
        assert_eq!(rt; count, Err(CombineFault::Write));
        assert_eq!(rt; writer.failures(), 1);
        assert_eq!(rt; told.rounds, 0);
    }
    Ok(())
}
