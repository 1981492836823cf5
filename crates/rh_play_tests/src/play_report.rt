use rh_ledger::Tally;
use rh_play_text::*;
use rh_tagword::Word;
use rh_words::StepKind;
use std::alloc::AllocError;
use std::test::*;

/// A call, by its line.
#[derive(Clone, Copy)]
enum Line {
    Turn(u64, u64, Last),
    Until(u64, StepKind, Last),
    /// The step that turns were made for.
    Reached(u64, StepKind),
    Rest(Rest),
    Round(bool),
    Empty(usize),
    Key(usize, u64),
    Mark(usize, u64, u64),
    Desc(usize, u64, u64),
    Tally(u64, u64, u64, u64),
    End(bool),
}

fn push(out: &mut Vec<u8>, line: Line) -> Result<(), AllocError> {
    match line {
        Line::Turn(worker, turns, last) => push_turn(out, worker, turns, last),
        Line::Until(worker, step, last) => push_until(out, worker, step, last),
        Line::Reached(worker, step) => push_until(out, worker, step, Last::Did(step)),
        Line::Rest(rest) => push_rest(out, rest),
        Line::Round(began) => push_round(out, began),
        Line::Empty(cell) => push_raw(out, cell, Word::Empty),
        Line::Key(cell, key) => push_raw(out, cell, Word::Key(key)),
        Line::Mark(cell, worker, number) => push_raw(out, cell, Word::Mark { worker, number }),
        Line::Desc(cell, worker, number) => push_raw(out, cell, Word::Desc { worker, number }),
        Line::Tally(read, added, removed, found) => push_tally(
            out,
            Tally {
                read,
                added,
                removed,
                found,
            },
        ),
        Line::End(finished) => push_end(out, finished),
    }
}

const A_WORKER_HELPS: (&[Line], &str) = (
    &[
        Line::Reached(0, StepKind::Place),
        Line::Empty(3),
        Line::Mark(4, 0, 0),
        Line::Reached(1, StepKind::Decide),
        Line::Desc(4, 0, 0),
        Line::Turn(1, 1000, Last::Finished),
        Line::Key(4, 1),
        Line::Key(5, 9),
        Line::Rest(Rest::Finished),
        Line::Tally(2, 2, 0, 0),
        Line::End(true),
    ],
    "until 0 place place\n\
    raw 4 mark 0 0\n\
    until 1 decide decide\n\
    raw 4 desc 0 0\n\
    turn 1 1000 finished\n\
    raw 4 key 1\n\
    raw 5 key 9\n\
    rest finished\n\
    read 2 added 2 removed 0 found 0\n\
    finished\n",
);

const A_MARK_IS_SETTLED_LATE: (&[Line], &str) = (
    &[
        Line::Reached(0, StepKind::Settle),
        Line::Reached(1, StepKind::Place),
        Line::Desc(4, 0, 0),
        Line::Mark(5, 1, 0),
        Line::Turn(1, 1, Last::Did(StepKind::Read)),
        Line::Turn(0, 100, Last::Spent),
        Line::Reached(1, StepKind::Settle),
        Line::Key(4, 9),
        Line::Desc(5, 0, 0),
        Line::Turn(1, 100, Last::Spent),
        Line::Key(4, 9),
        Line::Tally(0, 0, 0, 0),
        Line::End(false),
    ],
    "until 0 settle settle\n\
    until 1 place place\n\
    raw 4 desc 0 0\n\
    raw 5 mark 1 0\n\
    turn 1 1 read\n\
    turn 0 100 spent\n\
    until 1 settle settle\n\
    raw 4 key 9\n\
    raw 5 desc 0 0\n\
    turn 1 100 spent\n\
    raw 4 key 9\n\
    read 0 added 0 removed 0 found 0\n\
    unfinished\n",
);

const A_KEY_SLIPS_PAST_A_SCAN: (&[Line], &str) = (
    &[
        Line::Turn(0, 2, Last::Did(StepKind::Read)),
        Line::Turn(1, 1000, Last::Finished),
        Line::Key(0, 21),
        Line::Key(1, 5),
        Line::Key(7, 8),
        Line::Turn(0, 1, Last::Did(StepKind::Read)),
        Line::Reached(0, StepKind::Decide),
        Line::Rest(Rest::Finished),
        Line::Tally(2, 0, 2, 0),
        Line::End(true),
    ],
    "turn 0 2 read\n\
    turn 1 1000 finished\n\
    raw 0 key 21\n\
    raw 1 key 5\n\
    raw 7 key 8\n\
    turn 0 1 read\n\
    until 0 decide decide\n\
    rest finished\n\
    read 2 added 0 removed 2 found 0\n\
    finished\n",
);

const A_SECOND_ROUND: (&[Line], &str) = (
    &[
        Line::Rest(Rest::Spent),
        Line::Round(true),
        Line::Rest(Rest::Finished),
    ],
    "rest spent\nround yes\nrest finished\n",
);

const NO_SUCH_WORKER: (&[Line], &str) = (
    &[Line::Turn(5, 1, Last::NoWorker), Line::Round(false)],
    "turn 5 1 none\nround no\n",
);

const KEYS_ARE_CLAIMED: (&[Line], &str) = (
    &[
        Line::Turn(1, 1, Last::Did(StepKind::Claim)),
        Line::Turn(0, 1, Last::Did(StepKind::Claim)),
        Line::Reached(1, StepKind::Decide),
        Line::Desc(4, 1, 0),
        Line::Rest(Rest::Finished),
    ],
    "turn 1 1 claim\n\
    turn 0 1 claim\n\
    until 1 decide decide\n\
    raw 4 desc 1 0\n\
    rest finished\n",
);

/// What no play above prints.
const OTHERS: (&[Line], &str) = (
    &[
        Line::Reached(0, StepKind::Write),
        Line::Reached(0, StepKind::Open),
        Line::Reached(0, StepKind::Read),
        Line::Reached(0, StepKind::Release),
        Line::Reached(0, StepKind::Claim),
        Line::Until(15, StepKind::Claim, Last::Limit),
        Line::Until(u64::MAX, StepKind::Write, Last::NoWorker),
        Line::Rest(Rest::Limit),
        Line::Mark(262_143, 15, 72_057_594_037_927_935),
        Line::Tally(4, 3, 2, 1),
    ],
    "until 0 write write\n\
    until 0 open open\n\
    until 0 read read\n\
    until 0 release release\n\
    until 0 claim claim\n\
    until 15 claim limit\n\
    until 18446744073709551615 write none\n\
    rest limit\n\
    raw 262143 mark 15 72057594037927935\n\
    read 4 added 3 removed 2 found 1\n",
);

#[test]
fn plays_print_their_lines(rt: HostRuntime) -> Result<(), Fail> {
    for (lines, text) in [
        A_WORKER_HELPS,
        A_MARK_IS_SETTLED_LATE,
        A_KEY_SLIPS_PAST_A_SCAN,
        A_SECOND_ROUND,
        NO_SUCH_WORKER,
        KEYS_ARE_CLAIMED,
        OTHERS,
    ] {
        let mut out = Vec::new(rt.alloc());
        for line in lines {
            push(&mut out, *line)?;
        }
        assert_eq!(rt; out.as_slice(), text.as_bytes());
    }
    Ok(())
}
