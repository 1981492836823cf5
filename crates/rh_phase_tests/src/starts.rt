ghost use Rattle.std.specs.Prelude.{◌==◌, not};

use rh_edit::SeqSet;
use rh_layout::is_layout;
use rh_ledger::{Kind, Tally};
use rh_phase::{AllStart, OpenGate, PhaseFault, Starts, ask_with, change_with};
use rh_words::Rooms;
use std::sync::atomic::{AtomicU64, Ordering};
use std::test::Fail;

// Room for one key of 3 bits, and no more.
const ROOMS: Rooms = Rooms {
    descriptors: 1,
    marks: 8,
};

/// The half whose first worker this is does not start.
#[derive(Drop)]
struct AllBut(usize);

impl Starts for AllBut {
    ghost allows = { λ s worker. not (worker == s.0) };

    fn allowed(&self, worker: usize) -> bool {
        worker != self.0
    }
}

#[test]
fn a_refused_start_leaves_the_cells(rt: HostRuntime) -> Result<(), Fail> {
    for workers in [2, 8, 16] {
        // (worker 0 starts with the call)
        for refused in 0..workers {
            assert!(rt; 0 < workers && workers <= 16);
            let set = SeqSet::new(rt.alloc(), 3)?;
            assert!(rt; set.len() == 0);
            let mut cells = set.into_cells();
            assert!(rt; is_layout(3, &cells));
            let starts = AllBut(refused);
            let told = change_with(
                &rt,
                rt.alloc(),
                workers,
                Kind::Insert,
                3,
                &mut cells,
                &[9, 9],
                &OpenGate,
                &starts,
                ROOMS,
            );
            if refused == 0 {
                let tally = Tally {
                    read: 2,
                    added: 1,
                    removed: 0,
                    found: 0,
                };
                assert!(rt; told == Ok(tally));
                assert_eq!(rt; cells.as_slice(), [0, 0, 0, 0, 10, 0, 0, 0].as_slice());
            } else {
                assert!(rt; told == Err(PhaseFault::NoThread));
                assert_eq!(rt; cells.as_slice(), [0, 0, 0, 0, 0, 0, 0, 0].as_slice());
            }
        }
    }
    Ok(())
}

/// The same, and counts how many halves were asked for.
#[derive(Drop)]
struct Counted {
    refused: usize,
    asked: AtomicU64,
}

impl Starts for Counted {
    ghost allows = { λ s worker. not (worker == s.refused) };

    fn allowed(&self, worker: usize) -> bool {
        self.asked.fetch_add(1, Ordering::SeqCst);
        worker != self.refused
    }
}

// Where a half may not start, none of its own halves is asked for; the other half forks on.
#[test]
fn workers_fork_in_halves(rt: HostRuntime) -> Result<(), Fail> {
    for (refused, asked) in [(4, 1), (2, 5), (6, 5), (1, 7)] {
        let set = SeqSet::new(rt.alloc(), 3)?;
        assert!(rt; set.len() == 0);
        let mut cells = set.into_cells();
        assert!(rt; is_layout(3, &cells));
        let starts = Counted {
            refused,
            asked: AtomicU64::new(0),
        };
        let told = change_with(
            &rt,
            rt.alloc(),
            8,
            Kind::Insert,
            3,
            &mut cells,
            &[9, 9],
            &OpenGate,
            &starts,
            ROOMS,
        );
        assert!(rt; told == Err(PhaseFault::NoThread));
        assert_eq!(rt; starts.asked.load(Ordering::SeqCst), asked);
    }
    Ok(())
}

#[test]
fn a_refused_start_ends_the_look_ups(rt: HostRuntime) -> Result<(), Fail> {
    for refused in 0..16 {
        let set = SeqSet::from_keys(rt.alloc(), 3, &[1, 9, 17])?;
        assert!(rt; set.bits() == 3);
        let starts = AllBut(refused);
        let found = ask_with(
            &rt,
            rt.alloc(),
            16,
            3,
            set.cells(),
            &[1, 2, 9],
            &OpenGate,
            &starts,
            ROOMS,
        );
        // (the first worker starts with the call)
        match found {
            Ok(found) => assert!(rt;
                refused == 0 && found.as_slice() == [true, false, true].as_slice()
            ),
            Err(fault) => assert!(rt; refused != 0 && fault == PhaseFault::NoThread),
        }
    }
    Ok(())
}

#[test]
fn small_rooms_take_more_rounds(rt: HostRuntime) -> Result<(), Fail> {
    for descriptors in 1..4 {
        for workers in [1, 2, 5, 8] {
            assert!(rt; 0 < workers && workers <= 16);
            let set = SeqSet::new(rt.alloc(), 3)?;
            assert!(rt; set.len() == 0);
            let mut cells = set.into_cells();
            assert!(rt; is_layout(3, &cells));
            let keys = [1, 9, 17, 6, 14, 3];
            let told = change_with(
                &rt,
                rt.alloc(),
                workers,
                Kind::Insert,
                3,
                &mut cells,
                &keys,
                &OpenGate,
                &AllStart,
                Rooms {
                    descriptors,
                    marks: 8,
                },
            )?;
            assert_eq!(rt;
                told,
                Tally {
                    read: 6,
                    added: 6,
                    removed: 0,
                    found: 0
                }
            );
            assert_eq!(rt; cells.as_slice(), [15, 4, 0, 0, 2, 10, 18, 7].as_slice());
        }
    }
    Ok(())
}
