ghost use Rattle.std.specs.Prelude.{◌≤◌, IfSome};
ghost use Rattle.rh_draw.specs.declared.limits.TheConstants.{MAX_STEPS};

use crate::pictures::occurrences;
use crate::play_run::{NOT_BEGUN, NOT_PLAYS, QUESTIONS, many_removals};
use rh_bytes::Counted;
use rh_draw::MAX_STEPS;
use rh_faulty::{FaultyReader, FaultyWriter, Refusal};
use rh_play_run::{DrawFault, PlayRunFault, draw_play};
use rh_play_text::{PlayTextFault, PlayTextKind};
use std::alloc::Global;
use std::test::*;

// The picture of a play, or its fault where nothing was written.
fn drawn(
    alloc: Global,
    text: &[u8],
    from: u64,
    steps: Option<u64>,
) -> Result<Vec<u8>, Option<DrawFault>>
    requires { IfSome steps (λ n. n ≤ MAX_STEPS) }
{
    let mut writer = Counted::new(Vec::new(alloc));
    let outcome = draw_play(alloc, from, steps, &mut Counted::new(text), &mut writer);
    let written = writer.into_inner();
    match outcome {
        Ok(()) => Ok(written),
        Err(fault) if written.is_empty() => Err(Some(fault)),
        Err(_) => Err(None),
    }
}

// Key 9 stands in the cell behind its home, and the home of key 2 is empty.
const READS: [&str; 3] = [
    "<title>1 0 read cell 4 found key 1</title>",
    "<title>2 0 read cell 5 found key 9</title>",
    "<title>3 0 read cell 1 found empty</title>",
];

#[test]
fn a_play_is_drawn_once(rt: HostRuntime) -> Result<(), Fail> {
    let text = drawn(rt.alloc(), QUESTIONS.0.as_bytes(), 1, None).map_err(|_| "refused")?;
    assert!(rt; text.starts_with(b"<svg "));
    assert!(rt; text.ends_with(b"</svg>"));
    assert_eq!(rt; occurrences(&text, "<svg "), 1);
    assert_eq!(rt; occurrences(&text, "<title>"), 3);
    for title in READS {
        assert_eq!(rt; occurrences(&text, title), 1);
    }
    Ok(())
}

// Worker 0 asks for two keys of a table that holds three.
const TITLE: [&str; 3] = [
    ">Workers ask for keys in a table of 8 cells</text>",
    ">held at first: 17 1 9</text>",
    ">worker 0: 9 2</text>",
];

// The number of the first step, how many are chosen, and which of the reads are drawn.
const WINDOWS: &[(u64, Option<u64>, [u64; 3])] = &[
    (0, None, [1, 1, 1]),
    (0, Some(1), [1, 0, 0]),
    (2, None, [0, 1, 1]),
    (1, Some(2), [1, 1, 0]),
    (2, Some(1), [0, 1, 0]),
    (3, Some(2000), [0, 0, 1]),
];

#[test]
fn the_steps_that_are_chosen_are_drawn(rt: HostRuntime) -> Result<(), Fail> {
    for &(from, steps, [first, second, third]) in WINDOWS {
        if steps.unwrap_or(0) > MAX_STEPS {
            return Err("a window that is too large".into());
        }
        let text = drawn(rt.alloc(), QUESTIONS.0.as_bytes(), from, steps).map_err(|_| "refused")?;
        assert_eq!(rt; occurrences(&text, READS[0]), first, "from {from}");
        assert_eq!(rt; occurrences(&text, READS[1]), second, "from {from}");
        assert_eq!(rt; occurrences(&text, READS[2]), third, "from {from}");
    }
    Ok(())
}

#[test]
fn a_first_step_behind_the_last_one_is_refused(rt: HostRuntime) {
    for steps in [None, Some(1)] {
        assert_eq!(rt;
            drawn(rt.alloc(), QUESTIONS.0.as_bytes(), 4, steps).err(),
            Some(Some(DrawFault::NoStep))
        );
    }
}

// Its first lines say what its workers are to do.
#[test]
fn a_picture_has_a_title(rt: HostRuntime) -> Result<(), Fail> {
    let text = drawn(rt.alloc(), QUESTIONS.0.as_bytes(), 1, None).map_err(|_| "refused")?;
    for line in TITLE {
        assert_eq!(rt; occurrences(&text, line), 1);
    }
    Ok(())
}

#[test]
fn too_many_steps_are_not_drawn(rt: HostRuntime) -> Result<(), Fail> {
    let play = many_removals(rt.alloc(), 30, 0, b"\nturn 0 2001\n")?;
    assert_eq!(rt;
        drawn(rt.alloc(), &play, 1, None).err(),
        Some(Some(DrawFault::TooMany))
    );
    let text = drawn(rt.alloc(), &play, 2, None).map_err(|_| "refused")?;
    assert_eq!(rt; occurrences(&text, "<title>"), 2000);
    let text = drawn(rt.alloc(), &play, 1, Some(2000)).map_err(|_| "refused")?;
    assert_eq!(rt; occurrences(&text, "<title>"), 2000);
    Ok(())
}

#[test]
fn a_play_that_is_refused_is_not_drawn(rt: HostRuntime) {
    for &(play, fault) in NOT_BEGUN {
        assert_eq!(rt;
            drawn(rt.alloc(), play.as_bytes(), 1, None).err(),
            Some(Some(DrawFault::Play(PlayRunFault::Start(fault)))),
            "of {play}"
        );
    }
    for &(text, line) in NOT_PLAYS {
        let kind = PlayTextKind::BadLine;
        assert_eq!(rt;
            drawn(rt.alloc(), text.as_bytes(), 1, None).err(),
            Some(Some(DrawFault::Play(PlayRunFault::Text(PlayTextFault { line, kind })))),
            "of {text}"
        );
    }
}

#[test]
fn each_read_fails(rt: HostRuntime) -> Result<(), Fail> {
    let play = QUESTIONS.0.as_bytes();
    for n in 1..1000 {
        let mut reader = Counted::new(FaultyReader::new(play, n));
        let mut writer = Counted::new(Vec::new(rt.alloc()));
        let outcome = draw_play(rt.alloc(), 1, None, &mut reader, &mut writer);
        if reader.failures() == 0 {
            // No read was left to fail: one gives the text, and one finds its end.
            assert_eq!(rt; n, 1 + 1 + 1);
            assert_eq!(rt; outcome, Ok(()));
            return Ok(());
        }
        assert_eq!(rt; outcome, Err(DrawFault::Play(PlayRunFault::Read)), "at {n}");
        assert!(rt; writer.into_inner().is_empty(), "at {n}");
    }
    Err("each read failed".into())
}

// All is written at once.
#[test]
fn a_refused_write_is_told(rt: HostRuntime) {
    let play = QUESTIONS.0.as_bytes();
    for refusal in [Refusal::Error, Refusal::TakesNothing] {
        let mut writer = Counted::new(FaultyWriter::new(rt.alloc(), 1, refusal));
        let outcome = draw_play(rt.alloc(), 1, None, &mut Counted::new(play), &mut writer);
        assert_eq!(rt; outcome, Err(DrawFault::Play(PlayRunFault::Write)));
        assert!(rt; writer.get_ref().text().is_empty());
    }
    let mut writer = Counted::new(FaultyWriter::new(rt.alloc(), 2, Refusal::Error));
    let outcome = draw_play(rt.alloc(), 1, None, &mut Counted::new(play), &mut writer);
    assert_eq!(rt; outcome, Ok(()));
    assert_eq!(rt; writer.failures(), 0);
}
