use rh_ledger::Kind;
use rh_play_text::*;
use rh_words::StepKind;
use std::alloc::{AllocFailed, Global};
use std::test::*;

// What a text is read to: kind, bits, the keys held, and the rooms.
type Head = (Kind, u64, &'static [u64], Option<(u64, u64)>);

fn head_is(play: &Play, (kind, bits, held, rooms): Head) -> bool {
    play.kind == kind
        && play.bits.value == bits
        && play.held.as_slice() == held
        && play.rooms.map(|r| (r.descriptors, r.marks)) == rooms
}

fn pieces_are(work: &Work, wanted: &[&[u64]]) -> bool {
    match work {
        Work::Pieces(pieces) => {
            pieces.len() == wanted.len()
                && pieces.iter().zip(wanted).all(|(p, w)| p.as_slice() == *w)
        }
        Work::Share { .. } => false,
    }
}

fn shares(work: &Work, wanted: u64, wanted_keys: &[u64]) -> bool {
    match work {
        Work::Pieces(_) => false,
        Work::Share { workers, keys } => *workers == wanted && keys.as_slice() == wanted_keys,
    }
}

fn turn(worker: u64, turns: u64) -> Order {
    Order::Turn { worker, turns }
}

fn until(worker: u64, step: StepKind) -> Order {
    Order::Until { worker, step }
}

#[test]
fn a_helped_insertion_is_read(rt: HostRuntime) -> Result<(), Fail> {
    let play = parse_play(
        rt.alloc(),
        b"play insert\nbits 3\nheld\nwork 9\nwork 1\nuntil 0 place\nshow\nuntil 1 decide\nshow\n\
turn 1 1000\nshow\nrest\n",
    )?;
    assert!(rt; head_is(&play, (Kind::Insert, 3, &[], None)));
    assert!(rt; pieces_are(&play.work, &[&[9], &[1]]));
    assert_eq!(rt;
        play.schedule.as_slice(),
        [
            until(0, StepKind::Place),
            Order::Show,
            until(1, StepKind::Decide),
            Order::Show,
            turn(1, 1000),
            Order::Show,
            Order::Rest,
        ]
        .as_slice()
    );
    Ok(())
}

#[test]
fn a_late_promotion_is_read(rt: HostRuntime) -> Result<(), Fail> {
    let play = parse_play(
        rt.alloc(),
        b"play insert\nbits 3\nheld 9\nrooms 8 1\nwork 1\nwork 17\nuntil 0 settle\nuntil 1 place\n\
until 1 place\nshow\nturn 1 1\nturn 0 100\nuntil 1 settle\nshow\nturn 1 100\nshow",
    )?;
    assert!(rt; head_is(&play, (Kind::Insert, 3, &[9], Some((8, 1)))));
    assert!(rt; pieces_are(&play.work, &[&[1], &[17]]));
    assert_eq!(rt;
        play.schedule.as_slice(),
        [
            until(0, StepKind::Settle),
            until(1, StepKind::Place),
            until(1, StepKind::Place),
            Order::Show,
            turn(1, 1),
            turn(0, 100),
            until(1, StepKind::Settle),
            Order::Show,
            turn(1, 100),
            Order::Show,
        ]
        .as_slice()
    );
    Ok(())
}

#[test]
fn a_removal_is_read(rt: HostRuntime) -> Result<(), Fail> {
    let play = parse_play(
        rt.alloc(),
        b"play remove\nbits 3\nheld 8 16 5 21\nwork 5\nwork 16\nturn 0 2\n",
    )?;
    assert!(rt; head_is(&play, (Kind::Remove, 3, &[8, 16, 5, 21], None)));
    assert!(rt; pieces_are(&play.work, &[&[5], &[16]]));
    assert_eq!(rt; play.schedule.as_slice(), [turn(0, 2)].as_slice());
    Ok(())
}

#[test]
fn rounds_are_read(rt: HostRuntime) -> Result<(), Fail> {
    let play = parse_play(
        rt.alloc(),
        b"play insert\nbits 3\nheld 9\nrooms 2 2\nwork 1 2\nrest\nround\nrest\n",
    )?;
    assert!(rt; head_is(&play, (Kind::Insert, 3, &[9], Some((2, 2)))));
    assert!(rt; pieces_are(&play.work, &[&[1, 2]]));
    assert_eq!(rt;
        play.schedule.as_slice(),
        [Order::Rest, Order::Round, Order::Rest].as_slice()
    );
    let play = parse_play(
        rt.alloc(),
        b"play insert\nbits 3\nheld\nrooms 8 8\nwork 1 9 17 6 14 3\nrest\nround\nrest\nround\nrest",
    )?;
    assert!(rt; head_is(&play, (Kind::Insert, 3, &[], Some((8, 8)))));
    assert!(rt; pieces_are(&play.work, &[&[1, 9, 17, 6, 14, 3]]));
    assert_eq!(rt; play.schedule.len(), 5);
    Ok(())
}

#[test]
fn shared_keys_are_read(rt: HostRuntime) -> Result<(), Fail> {
    let play = parse_play(rt.alloc(), b"play insert\nbits 3\nheld\nshare 2 9 1")?;
    assert!(rt; shares(&play.work, 2, &[9, 1]));
    let play = parse_play(
        rt.alloc(),
        b"play insert\nbits 3\nheld\nrooms 8 8\nshare 2 9 1\nturn 1 1\nturn 0 1\nuntil 1 decide\n\
show\nuntil 1 claim\nrest\n",
    )?;
    assert!(rt; head_is(&play, (Kind::Insert, 3, &[], Some((8, 8)))));
    assert!(rt; shares(&play.work, 2, &[9, 1]));
    assert_eq!(rt;
        play.schedule.as_slice(),
        [
            turn(1, 1),
            turn(0, 1),
            until(1, StepKind::Decide),
            Order::Show,
            until(1, StepKind::Claim),
            Order::Rest,
        ]
        .as_slice()
    );
    Ok(())
}

// Numbers of workers and keys are not tested here.
#[test]
fn any_numbers_are_read(rt: HostRuntime) -> Result<(), Fail> {
    let play = parse_play(
        rt.alloc(),
        b"  play   ask \r\n# comment\n\nbits 018\nheld 18446744073709551615 0\n#\nwork\n\nwork 00000000000000000009\r",
    )?;
    assert!(rt; head_is(&play, (Kind::Ask, 18, &[u64::MAX, 0], None)));
    assert!(rt; pieces_are(&play.work, &[&[], &[9]]));
    assert!(rt; play.schedule.is_empty());
    for text in [
        b"play ask\nbits 3\nheld\nshare 0".as_slice(),
        b"play ask\nbits 3\nheld\nshare 17 1",
        b"play ask\nbits 3\nheld\nrooms 1 100000\nwork\nturn 99 1000000\nuntil 8 open",
        b"play ask\nbits 3\nheld\nwork\nuntil 0 write\nuntil 0 read\nuntil 0 release",
    ] {
        assert!(rt; parse_play(rt.alloc(), text).is_ok());
    }
    Ok(())
}

// Texts, and the lines of their faults.
#[rattlefmt::skip]
const BAD_LINES: &[(&[u8], u64)] = &[
    (b"", 1),
    (b"\n", 2),
    (b"# nothing\n", 2),
    (b"play", 1),
    (b"play insert", 2),
    (b"play insert\n", 2),
    (b"play insert\n\n# no more\n", 4),
    (b"play add\n", 1),
    (b"play insert remove\n", 1),
    (b"Play insert\n", 1),
    (b"play\tinsert\n", 1),
    (b" # play insert\n", 1),
    (b"bits 3\nplay insert", 1),
    (b"play insert\nplay insert", 2),
    (b"play insert\nbits 2", 2),
    (b"play insert\nbits 19", 2),
    (b"play insert\n\n#\nbits 2", 4),
    (b"play insert\nbits", 2),
    (b"play insert\nbits 3 3", 2),
    (b"play insert\nheld", 2),
    (b"play insert\nbits 3\nwork 1", 3),
    (b"play insert\nbits 3\nheld", 4),
    (b"play insert\nbits 3\nheld +1", 3),
    (b"play insert\nbits 3\nheld 000000000000000000001", 3),
    (b"play insert\nbits 3\nheld 18446744073709551616", 3),
    (b"play insert\nbits 3\nheld 1\nrooms 0 1\nwork", 4),
    (b"play insert\nbits 3\nheld 1\nrooms 1 100001\nwork", 4),
    (b"play insert\nbits 3\nheld 1\nrooms 1\nwork", 4),
    (b"play insert\nbits 3\nheld 1\nrooms 1 1", 5),
    (b"play insert\nbits 3\nheld 1\nrooms 1 1\nrooms 1 1\nwork", 5),
    (b"play insert\nbits 3\nheld 1\nwork\nrooms 1 1", 5),
    (b"play insert\nbits 3\nheld 1\nrest", 4),
    (b"play insert\nbits 3\nheld 1\nshare", 4),
    (b"play insert\nbits 3\nheld 1\nshare 1 2\nshare 1 2", 5),
    (b"play insert\nbits 3\nheld 1\nshare 1 2\nwork 1", 5),
    (b"play insert\nbits 3\nheld 1\nwork 1\nrest\nwork 1", 6),
    (b"play insert\nbits 3\nheld 1\nwork 1\nturn 0 0", 5),
    (b"play insert\nbits 3\nheld 1\nwork 1\nturn 0 1000001\nx", 5),
    (b"play insert\nbits 3\nheld 1\nwork 1\nuntil 0 swap\nx", 5),
];

#[test]
fn the_first_faulty_line_is_answered(rt: HostRuntime) {
    for &(text, line) in BAD_LINES {
        let kind = PlayTextKind::BadLine;
        assert_eq!(rt;
            parse_play(rt.alloc(), text).err(),
            Some(PlayTextFault { line, kind }),
            "{text:?}"
        );
    }
}

// The first lines, then one of so many spaces, and so many empty ones.
fn long_text(
    alloc: Global,
    first: &[u8],
    spaces: usize,
    lines: usize,
) -> Result<Vec<u8>, AllocFailed<u8>> {
    let mut text = Vec::new(alloc);
    for b in first {
        text.push(*b)?;
    }
    for _ in 0..spaces {
        text.push(b' ')?;
    }
    for _ in 0..lines {
        text.push(b'\n')?;
    }
    Ok(text)
}

// The length is tested first; up to the limit there may be any number of lines of any length.
#[test]
fn texts_have_a_limit(rt: HostRuntime) -> Result<(), Fail> {
    let first = b"play insert\nbits 3\nheld\nwork\n#".as_slice();
    let text = long_text(rt.alloc(), first, 600_000, 448_546)?;
    assert_eq!(rt; text.len(), 1_048_576);
    assert!(rt; parse_play(rt.alloc(), &text).is_ok());
    let too_long = PlayTextFault {
        line: 0,
        kind: PlayTextKind::TooLong,
    };
    let text = long_text(rt.alloc(), first, 600_000, 448_547)?;
    assert_eq!(rt; parse_play(rt.alloc(), &text).err(), Some(too_long));
    let text = long_text(rt.alloc(), b"x", 600_000, 600_000)?;
    assert_eq!(rt; parse_play(rt.alloc(), &text).err(), Some(too_long));
    Ok(())
}

#[test]
fn faults_can_be_printed(rt: HostRuntime) -> Result<(), Fail> {
    for (kind, text) in [
        (PlayTextKind::BadLine, "line 7: bad line"),
        (PlayTextKind::TooLong, "line 7: too long"),
        (PlayTextKind::Memory, "line 7: out of memory"),
    ] {
        let fault = PlayTextFault { line: 7, kind };
        assert_eq!(rt; format!(in rt.alloc(); "{fault}")?.as_str(), text);
    }
    Ok(())
}

#[test]
fn the_limits_are_these(rt: HostRuntime) {
    assert_eq!(rt; MAX_TEXT_BYTES, 1_048_576);
    assert_eq!(rt; MIN_BITS, 3);
    assert_eq!(rt; MAX_BITS, 18);
    assert_eq!(rt; MAX_PLAY_ROOM, 100_000);
    assert_eq!(rt; MAX_TURNS, 1_000_000);
}
