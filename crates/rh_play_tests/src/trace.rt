use rh_trace::*;
use rh_words::{Part, StepKind};
use std::test::*;

fn touched(part: Part, found: u64, left: u64) -> Touched {
    Touched { part, found, left }
}

fn step(number: u64, worker: usize, kind: StepKind, touched: Touched) -> Traced {
    Traced {
        number,
        worker,
        kind,
        touched,
    }
}

#[test]
fn steps_are_told(rt: HostRuntime) -> Result<(), Fail> {
    let steps = [
        step(1, 0, StepKind::Read, touched(Part::Cell(4), 0, 0)),
        step(
            2,
            0,
            StepKind::Write,
            touched(Part::Serial { worker: 0 }, 0, 1),
        ),
        step(
            3,
            0,
            StepKind::Write,
            touched(Part::Length { worker: 0 }, 2, 2),
        ),
        step(
            4,
            15,
            StepKind::Open,
            touched(Part::Control { worker: 15 }, 0, 257),
        ),
        step(5, 0, StepKind::Place, touched(Part::Cell(262_143), 40, 1)),
        step(
            6,
            1,
            StepKind::Settle,
            touched(
                Part::Cell(4),
                288_230_376_151_711_753,
                4_323_455_642_275_676_174,
            ),
        ),
        step(
            7,
            1,
            StepKind::Decide,
            touched(Part::Control { worker: 0 }, 1, 2),
        ),
        step(8, 1, StepKind::Release, touched(Part::Cell(4), 2, 4)),
        step(9, 2, StepKind::Claim, touched(Part::Counter, 3, 4)),
        step(
            u64::MAX,
            3,
            StepKind::Write,
            touched(
                Part::Reason {
                    worker: 3,
                    owner: 2,
                },
                5,
                6,
            ),
        ),
    ];
    let mut out = Vec::new(rt.alloc());
    for step in &steps {
        push_step(&mut out, step)?;
    }
    let text = "1 0 read cell 4 found empty\n\
        2 0 write serial 0 found 0 now 1\n\
        3 0 write length 0 found 2\n\
        4 15 open control 15 found 0 unused now 1 undecided\n\
        5 0 place cell 262143 found key 9 now mark 0 0\n\
        6 1 settle cell 4 found mark 1 2 now desc 15 3\n\
        7 1 decide control 0 found 0 undecided now 0 succeeded\n\
        8 1 release cell 4 found desc 0 0 now key 0\n\
        9 2 claim counter found 3 now 4\n\
        18446744073709551615 3 write reason 3 2 found 5 now 6\n";
    assert_eq!(rt; out.as_slice(), text.as_bytes());
    Ok(())
}

#[test]
fn rows_are_told(rt: HostRuntime) -> Result<(), Fail> {
    let rows = [
        touched(
            Part::EntryCell {
                worker: 1,
                entry: 2,
            },
            40,
            41,
        ),
        touched(
            Part::EntryOld {
                worker: 1,
                entry: 2,
            },
            0,
            40,
        ),
        touched(
            Part::EntryNew {
                worker: 1,
                entry: 2,
            },
            4,
            3,
        ),
        touched(Part::MarkSerial { worker: 1 }, 1, 2),
        touched(Part::MarkDesc { worker: 1 }, 0, 2),
        touched(Part::MarkEntry { worker: 1 }, 0, 1),
        touched(Part::Control { worker: 1 }, 3, 1859),
        touched(Part::Control { worker: 1 }, 5, 0),
    ];
    let mut out = Vec::new(rt.alloc());
    for touched in rows {
        push_step_text(&mut out, &step(1, 1, StepKind::Write, touched))?;
        out.push(b'\n')?;
    }
    let text = "1 1 write entry 1 2 cell found 40 now 41\n\
        1 1 write entry 1 2 old found empty now key 9\n\
        1 1 write entry 1 2 new found key 0 now 3\n\
        1 1 write mark 1 serial found 1 now 2\n\
        1 1 write mark 1 desc found 0 now desc 0 0\n\
        1 1 write mark 1 entry found 0 now 1\n\
        1 1 write control 1 found 0 withdrawn now 7 failed 3\n\
        1 1 write control 1 found 5 now 0 unused\n";
    assert_eq!(rt; out.as_slice(), text.as_bytes());
    Ok(())
}

#[test]
fn a_word_is_told_alone(rt: HostRuntime) -> Result<(), Fail> {
    let mut out = Vec::new(rt.alloc());
    push_word(&mut out, Part::Cell(0), 40)?;
    push_word(&mut out, Part::Counter, 40)?;
    assert_eq!(rt; out.as_slice(), b"key 940".as_slice());
    Ok(())
}
