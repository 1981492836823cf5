ghost use Rattle.std.specs.Prelude.{◌<◌};

use rh_descriptor::*;
use rh_tagword::State;
use std::test::*;

// Two workers: 32 words of rows each, of which 24 are for entries.
const SHAPE: Shape = Shape {
    bits: 3,
    workers: 2,
    keys: 0,
    rooms: Rooms {
        descriptors: 2,
        marks: 8,
    },
};

// The places of a worker's words that are no entry's.
fn row(worker: usize) -> [usize; 8]
    requires { worker < 2 }
{
    [
        SHAPE.index(Part::Control { worker }),
        SHAPE.index(Part::Serial { worker }),
        SHAPE.index(Part::Length { worker }),
        SHAPE.index(Part::MarkSerial { worker }),
        SHAPE.index(Part::MarkDesc { worker }),
        SHAPE.index(Part::MarkEntry { worker }),
        SHAPE.index(Part::Reason { worker, owner: 0 }),
        SHAPE.index(Part::Reason { worker, owner: 1 }),
    ]
}

fn entry(worker: usize, entry: usize) -> [usize; 3]
    requires worker { worker < 2 }
    requires entry { entry < 8 }
{
    [
        SHAPE.index(Part::EntryCell { worker, entry }),
        SHAPE.index(Part::EntryOld { worker, entry }),
        SHAPE.index(Part::EntryNew { worker, entry }),
    ]
}

#[test]
fn each_part_has_its_place(rt: HostRuntime) {
    assert_eq!(rt; [SHAPE.cells(), SHAPE.words()], [8, 73]);
    let ends = [SHAPE.index(Part::Cell(7)), SHAPE.index(Part::Counter)];
    assert_eq!(rt; ends, [7, 72]);
    assert_eq!(rt; row(0), [8, 9, 10, 35, 36, 37, 38, 39]);
    assert_eq!(rt; row(1), [40, 41, 42, 67, 68, 69, 70, 71]);
    assert_eq!(rt; [entry(0, 0), entry(0, 7)], [[11, 12, 13], [32, 33, 34]]);
    assert_eq!(rt; [entry(1, 0), entry(1, 7)], [[43, 44, 45], [64, 65, 66]]);
}

// The largest table of all.
#[test]
fn the_words_can_be_counted(rt: HostRuntime) -> Result<(), Fail> {
    let shape = Shape {
        bits: 18,
        workers: MAX_WORKERS,
        keys: 1_000_000,
        rooms: Rooms::usual(),
    };
    assert_eq!(rt; shape.words(), 12_845_409);
    Ok(())
}

#[test]
fn the_usual_rooms_are_the_greatest(rt: HostRuntime) {
    let rooms = Rooms {
        descriptors: 72_057_594_037_927_935,
        marks: 72_057_594_037_927_935,
    };
    assert_eq!(rt; Rooms::usual(), rooms);
    assert_eq!(rt; MAX_ROOM, 72_057_594_037_927_935);
}

#[test]
fn a_claim_takes_the_next_place(rt: HostRuntime) -> Result<(), Fail> {
    let mut words = [0u64; 73];
    let mut side = Side::new(1, &[0; 8]);
    assert_eq!(rt; claim_key(&SHAPE, &mut words, &mut side), 0);
    assert_eq!(rt; words[72], 1);
    Ok(())
}

#[test]
fn a_word_of_an_own_row_is_written_and_read(rt: HostRuntime) -> Result<(), Fail> {
    let mut words = [0u64; 73];
    let mut side = Side::new(1, &[0; 8]);
    let part = Part::EntryOld {
        worker: 1,
        entry: 7,
    };
    write_word(&SHAPE, &mut words, &mut side, part, 40);
    assert_eq!(rt; words[65], 40);
    let read = Reading::Word(65);
    assert_eq!(rt; read_word(&SHAPE, &mut words, &mut side, read), 40);
    assert_eq!(rt;
        make_step(&SHAPE, &mut words, &mut side, Request::Read(read)),
        40
    );
    Ok(())
}

// Cell 4 goes from empty to key 1, by one worker alone.
#[test]
fn one_worker_changes_one_cell(rt: HostRuntime) -> Result<(), Fail> {
    let mut words = [0u64; 73];
    let mut side = Side::new(0, &[0; 8]);
    let (worker, entry) = (0, 0);
    write_word(&SHAPE, &mut words, &mut side, Part::Serial { worker }, 0);
    write_word(&SHAPE, &mut words, &mut side, Part::Length { worker }, 1);
    write_word(
        &SHAPE,
        &mut words,
        &mut side,
        Part::EntryCell { worker, entry },
        4,
    );
    write_word(
        &SHAPE,
        &mut words,
        &mut side,
        Part::EntryOld { worker, entry },
        0,
    );
    write_word(
        &SHAPE,
        &mut words,
        &mut side,
        Part::EntryNew { worker, entry },
        8,
    );
    open_desc(&SHAPE, &mut words, &mut side, 1);
    let desc = Ref {
        worker: 0,
        number: 0,
    };
    let piece = Piece {
        desc,
        entry: 0,
        cell: 4,
    };
    write_word(
        &SHAPE,
        &mut words,
        &mut side,
        Part::MarkSerial { worker },
        0,
    );
    write_word(&SHAPE, &mut words, &mut side, Part::MarkDesc { worker }, 2);
    write_word(&SHAPE, &mut words, &mut side, Part::MarkEntry { worker }, 0);
    assert_eq!(rt; place_mark(&SHAPE, &mut words, &mut side, piece, 0), 0);
    let marked = words[4];
    let mark = Ref {
        worker: 0,
        number: 0,
    };
    let control = Reading::MarkControl {
        mark,
        cell: 4,
        desc,
    };
    assert_eq!(rt; read_word(&SHAPE, &mut words, &mut side, control), 1);
    assert_eq!(rt;
        settle_mark(&SHAPE, &mut words, &mut side, mark, piece, None),
        1
    );
    let promoted = words[4];
    let state = State::Succeeded;
    assert_eq!(rt; decide_desc(&SHAPE, &mut words, &mut side, desc, state), 1);
    assert_eq!(rt;
        release_cell(&SHAPE, &mut words, &mut side, piece, Some(state), 8),
        2
    );
    let used = side.marks_used;
    side.begin_round(&words[..8]);
    assert_eq!(rt; [used, side.marks_used], [1, 0]);
    assert_eq!(rt; [marked, promoted, words[4]], [1, 2, 8]);
    Ok(())
}
