use rh_bytes::Counted;
use rh_faulty::{FaultyReader, FaultyWriter, Refusal};
use rh_interleaving::PlayFault;
use rh_play_run::*;
use rh_play_text::{MAX_TEXT_BYTES, PlayTextFault, PlayTextKind};
use std::alloc::{AllocError, Global};
use std::test::*;

// What a play prints, or its fault where nothing was written.
fn played(alloc: Global, text: &[u8]) -> Result<Vec<u8>, Option<PlayRunFault>> {
    let mut writer = Counted::new(Vec::new(alloc));
    let outcome = run_play(alloc, &mut Counted::new(text), &mut writer);
    let written = writer.into_inner();
    match outcome {
        Ok(()) => Ok(written),
        Err(fault) if written.is_empty() => Err(Some(fault)),
        Err(_) => Err(None),
    }
}

const HELPING: (&str, &str) = (
    "play insert\nbits 3\nheld\nwork 9\nwork 1\nuntil 0 place\nshow\nuntil 1 decide\nshow\n\
turn 1 1000\nshow\nrest\n",
    "until 0 place place\nraw 4 mark 0 0\nuntil 1 decide decide\nraw 4 desc 0 0\n\
turn 1 1000 finished\nraw 4 key 1\nraw 5 key 9\nrest finished\n\
table 3 2\n4 1 0\n5 9 1\nend\nread 2 added 2 removed 0 found 0\nfinished\n",
);

const LATE_PROMOTION: (&str, &str) = (
    "play insert\nbits 3\nheld 9\nrooms 8 1\nwork 1\nwork 17\nuntil 0 settle\nuntil 1 place\n\
until 1 place\nshow\nturn 1 1\nturn 0 100\nuntil 1 settle\nshow\nturn 1 100\nshow\n",
    "until 0 settle settle\nuntil 1 place place\nuntil 1 place place\nraw 4 desc 0 0\n\
raw 5 mark 1 0\nturn 1 1 read\nturn 0 100 spent\nuntil 1 settle settle\nraw 4 key 9\n\
raw 5 desc 0 0\nturn 1 100 spent\nraw 4 key 9\n\
table 3 1\n4 9 0\nend\nread 0 added 0 removed 0 found 0\nunfinished\n",
);

// The mark of a helper stands in cell 4, for a descriptor whose row is of the next one by now.
const STALE_HELPER: (&str, &str) = (
    "play remove\nbits 3\nheld 1\nwork 9 2\nwork 1\nuntil 0 settle\nturn 1 8\nuntil 0 decide\n\
until 0 open\nuntil 1 place\nshow\n",
    "until 0 settle settle\nturn 1 8 read\nuntil 0 decide decide\nuntil 0 open open\n\
until 1 place place\nraw 4 mark 1 0\n\
table 3 1\n4 1 0\nend\nread 1 added 0 removed 0 found 0\nunfinished\n",
);

const SLIPPED_KEY: (&str, &str) = (
    "play remove\nbits 3\nheld 8 16 5 21\nwork 5\nwork 16\nturn 0 2\nturn 1 1000\nshow\n\
turn 0 1\nuntil 0 decide\nrest\n",
    "turn 0 2 read\nturn 1 1000 finished\nraw 0 key 21\nraw 1 key 5\nraw 7 key 8\n\
turn 0 1 read\nuntil 0 decide decide\nrest finished\n\
table 3 2\n0 21 1\n7 8 0\nend\nread 2 added 0 removed 2 found 0\nfinished\n",
);

const CUT_SHORT: (&str, &str) = (
    "play remove\nbits 3\nheld 8 16 5 21\nwork 5\nwork 16\nturn 0 2\n",
    "turn 0 2 read\ntable 3 4\n0 16 1\n1 21 2\n2 5 2\n7 8 0\nend\n\
read 0 added 0 removed 0 found 0\nunfinished\n",
);

const ROUNDS: (&str, &str) = (
    "play insert\nbits 3\nheld 9\nrooms 2 2\nwork 1 2\nrest\nround\nrest\n",
    "rest spent\nround yes\nrest finished\n\
table 3 3\n1 2 0\n4 1 0\n5 9 1\nend\nread 2 added 2 removed 0 found 0\nfinished\n",
);

const MORE_ROUNDS: (&str, &str) = (
    "play insert\nbits 3\nheld\nrooms 8 8\nwork 1 9 17 6 14 3\nrest\nround\nrest\nround\nrest\n",
    "rest spent\nround yes\nrest spent\nround yes\nrest finished\n\
table 3 6\n0 14 3\n1 3 3\n4 1 0\n5 9 1\n6 17 2\n7 6 2\nend\n\
read 6 added 6 removed 0 found 0\nfinished\n",
);

const NO_SUCH_WORKER: (&str, &str) = (
    "play insert\nbits 3\nheld\nwork 9\nwork 1\nturn 5 1\nround\n",
    "turn 5 1 none\nround no\ntable 3 0\nend\nread 0 added 0 removed 0 found 0\nunfinished\n",
);

const CLAIMS: (&str, &str) = (
    "play insert\nbits 3\nheld\nshare 2 9 1\nturn 1 1\nturn 0 1\nuntil 1 decide\nshow\nrest\n",
    CLAIMED,
);

const CLAIMS_IN_ROOMS: (&str, &str) = (
    "play insert\nbits 3\nheld\nrooms 8 8\nshare 2 9 1\nturn 1 1\nturn 0 1\nuntil 1 decide\n\
show\nrest\n",
    CLAIMED,
);

const CLAIMED: &str = "turn 1 1 claim\nturn 0 1 claim\nuntil 1 decide decide\nraw 4 desc 1 0\n\
rest finished\ntable 3 2\n4 1 0\n5 9 1\nend\nread 2 added 2 removed 0 found 0\nfinished\n";

// The order is printed without leading zeros, and a question is answered.
pub(crate) const QUESTIONS: (&str, &str) = (
    "play ask\nbits 3\nheld 17 1 9\nwork 9 2\nturn 00 0003\nuntil 00 write\n",
    "turn 0 3 read\nuntil 0 write finished\n\
table 3 3\n4 1 0\n5 9 1\n6 17 2\nend\nread 2 added 0 removed 0 found 1\nfinished\n",
);

const PLAYS: &[(&str, &str)] = &[
    HELPING,
    LATE_PROMOTION,
    STALE_HELPER,
    SLIPPED_KEY,
    CUT_SHORT,
    ROUNDS,
    MORE_ROUNDS,
    NO_SUCH_WORKER,
    CLAIMS,
    CLAIMS_IN_ROOMS,
    QUESTIONS,
];

#[test]
fn a_play_prints_its_text(rt: HostRuntime) -> Result<(), Fail> {
    for &(play, text) in PLAYS {
        let written = played(rt.alloc(), play.as_bytes()).map_err(|_| "refused")?;
        assert_eq!(rt; written.as_slice(), text.as_bytes(), "of {play}");
    }
    Ok(())
}

const SEVENTEEN: &str = "play ask\nbits 3\nheld\nwork\nwork\nwork\nwork\nwork\nwork\nwork\nwork\n\
work\nwork\nwork\nwork\nwork\nwork\nwork\nwork\nwork 4611686018427387903\n";

pub(crate) const NOT_BEGUN: &[(&str, PlayFault)] = &[
    // A key held, one too many of them, and both.
    (
        "play ask\nbits 3\nheld 4611686018427387903\nwork\n",
        PlayFault::BadKey,
    ),
    (
        "play ask\nbits 3\nheld 1 1 1 1 1 1 1 1\nwork\n",
        PlayFault::NoRoom,
    ),
    (
        "play ask\nbits 3\nheld 1 2 3 4 5 6 7 8 4611686018427387903\nwork\n",
        PlayFault::BadKey,
    ),
    // The keys to insert are counted before the workers, and these before the keys are tested.
    (
        "play insert\nbits 3\nheld\nwork 1 2 3 4 5 6 7 8\n",
        PlayFault::NoRoom,
    ),
    (
        "play insert\nbits 3\nheld\nshare 17 1 2 3 4 5 6 7 4611686018427387903\n",
        PlayFault::NoRoom,
    ),
    (SEVENTEEN, PlayFault::BadWorkers),
    (
        "play insert\nbits 3\nheld\nshare 17 1\n",
        PlayFault::BadWorkers,
    ),
    (
        "play insert\nbits 3\nheld\nshare 18446744073709551615 1\n",
        PlayFault::BadWorkers,
    ),
    (
        "play insert\nbits 3\nheld\nwork 4611686018427387903\n",
        PlayFault::BadKey,
    ),
];

#[test]
fn a_play_that_cannot_begin_writes_nothing(rt: HostRuntime) {
    for &(play, fault) in NOT_BEGUN {
        assert_eq!(rt;
            played(rt.alloc(), play.as_bytes()).err(),
            Some(Some(PlayRunFault::Start(fault))),
            "of {play}"
        );
    }
}

pub(crate) const NOT_PLAYS: &[(&str, u64)] = &[
    ("", 1),
    ("play insert\nbits 2\n", 2),
    ("# held\nplay\n", 2),
];

#[test]
fn another_text_writes_nothing(rt: HostRuntime) -> Result<(), Fail> {
    for &(text, line) in NOT_PLAYS {
        let kind = PlayTextKind::BadLine;
        assert_eq!(rt;
            played(rt.alloc(), text.as_bytes()).err(),
            Some(Some(PlayRunFault::Text(PlayTextFault { line, kind }))),
            "of {text}"
        );
    }
    let long = vec![in rt.alloc(); b' '; MAX_TEXT_BYTES + 10]?;
    let mut reader = Counted::new(long.as_slice());
    let mut writer = Counted::new(Vec::new(rt.alloc()));
    let kind = PlayTextKind::TooLong;
    assert_eq!(rt;
        run_play(rt.alloc(), &mut reader, &mut writer),
        Err(PlayRunFault::Text(PlayTextFault { line: 0, kind }))
    );
    // One byte more than a text may have was read.
    assert_eq!(rt; reader.into_inner().len(), 9);
    assert!(rt; writer.into_inner().is_empty());
    Ok(())
}

// The first worker removes key 9 so many times from a table that does not hold it; the others have
// no key. The seven keys that are held have home 3, so each time the worker reads the cells from 4
// on to the empty cell 2, and its K-CAS names these seven: 7 + 11 * 7 + 5 steps.
pub(crate) fn many_removals(
    alloc: Global,
    count: usize,
    others: usize,
    schedule: &[u8],
) -> Result<Vec<u8>, AllocError> {
    let mut text =
        b"play remove\nbits 3\nheld 4 12 25 33 38 46 59\nrooms 100000 100000\nwork".to_vec(alloc)?;
    for _ in 0..count {
        text.extend_from_slice(b" 9")?;
    }
    for _ in 0..others {
        text.extend_from_slice(b"\nwork")?;
    }
    text.extend_from_slice(schedule)?;
    Ok(text)
}

// A pass of sixteen workers takes sixteen turns, also where one worker alone makes steps.
const LIMITS: &[(usize, usize, &str, &str)] = &[
    (800, 15, "\nrest\nrest\n", "rest limit\nrest finished\n"),
    (
        12_600,
        0,
        "\nuntil 0 claim\nuntil 0 claim\n",
        "until 0 claim limit\nuntil 0 claim finished\n",
    ),
];

#[test]
fn no_order_takes_more_than_a_million_turns(rt: HostRuntime) -> Result<(), Fail> {
    for &(count, others, schedule, lines) in LIMITS {
        let text = many_removals(rt.alloc(), count, others, schedule.as_bytes())?;
        let written = played(rt.alloc(), &text).map_err(|_| "refused")?;
        let end = format!(in rt.alloc();
            "table 3 7\n0 46 5\n1 59 6\n3 4 0\n4 12 1\n5 25 2\n6 33 3\n7 38 4\nend\n\
read {count} added 0 removed 0 found 0\nfinished\n"
        )?;
        assert!(rt; written.starts_with(lines.as_bytes()));
        assert!(rt; written.ends_with(end.as_bytes()));
        assert_eq!(rt; written.len(), lines.len() + end.len());
    }
    Ok(())
}

#[test]
fn each_read_fails(rt: HostRuntime) -> Result<(), Fail> {
    let (play, text) = HELPING;
    for n in 1..1000 {
        let mut reader = Counted::new(FaultyReader::new(play.as_bytes(), n));
        let mut writer = Counted::new(Vec::new(rt.alloc()));
        let outcome = run_play(rt.alloc(), &mut reader, &mut writer);
        let written = writer.into_inner();
        if reader.failures() == 0 {
            // No read was left to fail: one gives the text, and one finds its end.
            assert_eq!(rt; n, 1 + 1 + 1);
            assert_eq!(rt; outcome, Ok(()));
            assert_eq!(rt; written.as_slice(), text.as_bytes());
            return Ok(());
        }
        assert_eq!(rt; outcome, Err(PlayRunFault::Read), "at {n}");
        assert!(rt; written.is_empty(), "at {n}");
    }
    Err("each read failed".into())
}

#[test]
fn each_write_fails(rt: HostRuntime) -> Result<(), Fail> {
    let (play, text) = HELPING;
    for n in 1..1000 {
        let refusal = if n % 2 == 0 {
            Refusal::Error
        } else {
            Refusal::TakesNothing
        };
        let mut writer = Counted::new(FaultyWriter::new(rt.alloc(), n, refusal));
        let outcome = run_play(rt.alloc(), &mut Counted::new(play.as_bytes()), &mut writer);
        let written = writer.get_ref().text();
        if writer.failures() == 0 {
            // No write was left to fail: the lines before the dump are one, its head has 5 pieces,
            // each line 6, its end is one, and so are the lines below it.
            assert_eq!(rt; n, 1 + 5 + 2 * 6 + 1 + 1 + 1);
            assert_eq!(rt; outcome, Ok(()));
            assert_eq!(rt; written, text.as_bytes());
            return Ok(());
        }
        assert_eq!(rt; outcome, Err(PlayRunFault::Write), "at {n}");
        assert!(rt; text.as_bytes().starts_with(written), "at {n}");
    }
    Err("each write failed".into())
}

const FAULT_TEXTS: &[(PlayRunFault, &str)] = &[
    (PlayRunFault::Read, "read failed"),
    (
        PlayRunFault::Text(PlayTextFault {
            line: 3,
            kind: PlayTextKind::BadLine,
        }),
        "line 3: bad line",
    ),
    (
        PlayRunFault::Start(PlayFault::BadWorkers),
        "bad number of workers",
    ),
    (PlayRunFault::Memory, "out of memory"),
    (PlayRunFault::Write, "cannot write the output"),
];

#[test]
fn faults_have_their_texts(rt: HostRuntime) -> Result<(), Fail> {
    for &(fault, text) in FAULT_TEXTS {
        let told = format!(in rt.alloc(); "{fault}")?;
        assert_eq!(rt; told.as_str(), text);
    }
    Ok(())
}
