ghost use Rattle.std.specs.Prelude.{◌≤◌};
ghost use Rattle.rh_draw.specs.declared.limits.TheConstants.{MAX_STEPS};

use rh_draw::*;
use rh_trace::{Touched, Traced};
use rh_words::{Part, Rooms, Shape, StepKind};
use std::alloc::{AllocError, Global};
use std::test::*;

const SHAPE: Shape = Shape {
    bits: 3,
    workers: 2,
    keys: 2,
    rooms: Rooms {
        descriptors: 8,
        marks: 8,
    },
};

fn step(
    number: u64,
    worker: usize,
    kind: StepKind,
    part: Part,
    (found, left): (u64, u64),
) -> Record {
    Record::Step(Traced {
        number,
        worker,
        kind,
        touched: Touched { part, found, left },
    })
}

/// Worker 0 opens a descriptor that puts 9 into cell 4, and places its mark; worker 1, which reads
/// whose mark it is, does the rest, so that the control ends as this word.
fn helped(end: u64) -> [Record; 12] {
    let control = Part::Control { worker: 0 };
    let cell = Part::Cell(4);
    [
        Record::Round { next: 1 },
        step(1, 0, StepKind::Write, Part::Length { worker: 0 }, (0, 1)),
        step(
            2,
            0,
            StepKind::Write,
            Part::EntryCell {
                worker: 0,
                entry: 0,
            },
            (0, 4),
        ),
        step(
            3,
            0,
            StepKind::Write,
            Part::EntryNew {
                worker: 0,
                entry: 0,
            },
            (0, 40),
        ),
        step(4, 0, StepKind::Open, control, (0, 1)),
        step(5, 0, StepKind::Place, cell, (0, 1)),
        step(6, 1, StepKind::Read, Part::MarkDesc { worker: 0 }, (2, 2)),
        step(7, 1, StepKind::Settle, cell, (1, 2)),
        step(8, 1, StepKind::Decide, control, (1, end)),
        step(9, 1, StepKind::Release, cell, (2, 40)),
        Record::Round { next: 10 },
        Record::Round { next: 10 },
    ]
}

/// The picture of these records, at a table with no key at first.
fn drawn(
    alloc: Global,
    title: &[Vec<u8>],
    records: &[Record],
    keys: &[Option<u64>],
    window: Window,
) -> Result<Vec<u8>, AllocError>
    requires { window.steps ≤ MAX_STEPS }
{
    let recording = Recording {
        shape: &SHAPE,
        cells: &[0; 8],
        records,
        keys,
    };
    draw(alloc, title, &recording, window)
}

fn picture(alloc: Global, end: u64, window: Window) -> Result<Vec<u8>, AllocError>
    requires { window.steps ≤ MAX_STEPS }
{
    drawn(alloc, &[], &helped(end), &[], window)
}

/// How often the text has this piece.
pub(crate) fn occurrences(text: &[u8], piece: &str) -> u64 {
    let mut count: u64 = 0;
    for start in 0..text.len() {
        if text[start..].starts_with(piece.as_bytes()) {
            count = count.wrapping_add(1);
        }
    }
    count
}

const ALL: Window = Window { from: 1, steps: 9 };

#[test]
fn each_step_has_a_mark(rt: HostRuntime) -> Result<(), Fail> {
    let text = picture(rt.alloc(), 2, ALL)?;
    assert_eq!(rt; occurrences(&text, "<title>"), 9);
    for mark in [
        "<use href=\"#write\" x=\"128\" y=\"270\" class=\"write\"><title>1 0 write length 0 found 0 now 1</title></use>",
        "<use href=\"#place\" x=\"128\" y=\"390\" class=\"place\"><title>5 0 place cell 4 found empty now mark 0 0</title></use>",
        "<use href=\"#decide\" x=\"184\" y=\"480\" class=\"decide\"><title>8 1 decide control 0 found 0 undecided now 0 succeeded</title></use>",
        "<use href=\"#release\" x=\"184\" y=\"510\" class=\"release\"><title>9 1 release cell 4 found desc 0 0 now key 9</title></use>",
    ] {
        assert_eq!(rt; occurrences(&text, mark), 1);
    }
    Ok(())
}

// It is as wide as `mark 0 0`, with 7 pixels a letter, and 6 on either side.
#[test]
fn the_cell_that_changes_has_a_column(rt: HostRuntime) -> Result<(), Fail> {
    let text = picture(rt.alloc(), 2, ALL)?;
    assert_eq!(rt; occurrences(&text, "class=\"head\">cell "), 1);
    for piece in [
        "<text x=\"274\" y=\"230\" class=\"head\">cell 4</text>",
        "<rect x=\"242\" y=\"240\" width=\"64\" height=\"150\" class=\"empty\"></rect>",
        "<rect x=\"242\" y=\"390\" width=\"64\" height=\"60\" class=\"mark w0\"></rect>",
        "<rect x=\"242\" y=\"450\" width=\"64\" height=\"30\" class=\"desc w0\"></rect>",
        "<text x=\"246\" y=\"474\" class=\"value\">empty</text>",
        "<rect x=\"242\" y=\"480\" width=\"64\" height=\"30\" class=\"desc w0\"></rect>",
        "<text x=\"246\" y=\"504\" class=\"value\">key 9</text>",
        "<rect x=\"242\" y=\"510\" width=\"64\" height=\"30\" class=\"key\"></rect>",
    ] {
        assert_eq!(rt; occurrences(&text, piece), 1);
    }
    Ok(())
}

#[test]
fn acts_and_help_are_lines(rt: HostRuntime) -> Result<(), Fail> {
    let text = picture(rt.alloc(), 2, ALL)?;
    for piece in [
        "<line x1=\"100\" y1=\"480\" x2=\"308\" y2=\"480\" class=\"act\"></line>",
        "<text x=\"314\" y=\"484\" class=\"saying\">desc 0 0 succeeded; cell 4: empty -&gt; key 9</text>",
        "<line x1=\"184\" y1=\"480\" x2=\"128\" y2=\"480\" class=\"help w0\"></line>",
        "<circle r=\"4\" cx=\"128\" cy=\"480\" class=\"help w0\"></circle>",
    ] {
        assert_eq!(rt; occurrences(&text, piece), 1);
    }
    // those of steps 6 to 9, and that of the legend
    assert_eq!(rt; occurrences(&text, "class=\"help w0\"></line>"), 5);
    Ok(())
}

#[test]
fn steps_at_cells_are_about_the_descriptor_that_their_worker_is_at(
    rt: HostRuntime,
) -> Result<(), Fail> {
    let serial = Part::Serial { worker: 0 };
    let desc = Part::MarkDesc { worker: 1 };
    let cell = Part::Cell(4);
    let records = [
        step(1, 1, StepKind::Read, cell, (1, 1)),
        step(2, 1, StepKind::Place, cell, (0, 5)),
        step(3, 1, StepKind::Read, serial, (0, 0)),
        step(
            4,
            1,
            StepKind::Write,
            Part::MarkSerial { worker: 1 },
            (0, 1),
        ),
        step(5, 1, StepKind::Write, desc, (0, 2)),
        step(6, 1, StepKind::Place, cell, (0, 5)),
        step(7, 1, StepKind::Settle, cell, (5, 0)),
        step(8, 1, StepKind::Release, cell, (40, 40)),
        step(9, 1, StepKind::Read, cell, (40, 40)),
        step(10, 1, StepKind::Open, Part::Control { worker: 1 }, (0, 1)),
        step(11, 1, StepKind::Release, cell, (40, 40)),
    ];
    let window = Window { from: 1, steps: 20 };
    let text = drawn(rt.alloc(), &[], &records, &[], window)?;
    // from lane 1 to lane 0, at steps 3 to 8, and that of the legend
    assert_eq!(rt; occurrences(&text, "class=\"help w0\"></line>"), 7);
    for piece in [
        "<line x1=\"184\" y1=\"330\" x2=\"128\" y2=\"330\" class=\"help w0\"></line>",
        "<line x1=\"184\" y1=\"480\" x2=\"128\" y2=\"480\" class=\"help w0\"></line>",
    ] {
        assert_eq!(rt; occurrences(&text, piece), 1);
    }
    Ok(())
}

#[test]
fn a_withdrawn_descriptor_changes_no_value(rt: HostRuntime) -> Result<(), Fail> {
    let text = picture(rt.alloc(), 3, ALL)?;
    for piece in [
        "<line x1=\"100\" y1=\"480\" x2=\"308\" y2=\"480\" class=\"decision\"></line>",
        "<text x=\"314\" y=\"484\" class=\"saying\">desc 0 0 withdrawn</text>",
        "<rect x=\"242\" y=\"450\" width=\"64\" height=\"60\" class=\"desc w0\"></rect>",
    ] {
        assert_eq!(rt; occurrences(&text, piece), 1);
    }
    assert_eq!(rt; occurrences(&text, "; cell "), 0);
    Ok(())
}

#[test]
fn a_window_follows_the_steps_before_it(rt: HostRuntime) -> Result<(), Fail> {
    let text = picture(rt.alloc(), 2, Window { from: 8, steps: 1 })?;
    assert_eq!(rt; occurrences(&text, "<title>"), 1);
    for piece in [
        "<use href=\"#decide\" x=\"184\" y=\"270\" class=\"decide\">",
        "<rect x=\"242\" y=\"240\" width=\"64\" height=\"30\" class=\"desc w0\"></rect>",
        "<text x=\"314\" y=\"274\" class=\"saying\">desc 0 0 succeeded; cell 4: empty -&gt; key 9</text>",
        "<rect x=\"242\" y=\"270\" width=\"64\" height=\"30\" class=\"desc w0\"></rect>",
    ] {
        assert_eq!(rt; occurrences(&text, piece), 1);
    }
    // that of the legend
    assert_eq!(rt; occurrences(&text, "class=\"round\"></line>"), 1);
    Ok(())
}

#[test]
fn rounds_are_lines_across_the_lanes(rt: HostRuntime) -> Result<(), Fail> {
    let text = picture(rt.alloc(), 2, ALL)?;
    for (piece, times) in [
        (
            "<line x1=\"92\" y1=\"255\" x2=\"240\" y2=\"255\" class=\"round\"></line>",
            1,
        ),
        ("<text x=\"12\" y=\"259\" class=\"number\">round</text>", 1),
        (
            "<line x1=\"92\" y1=\"525\" x2=\"240\" y2=\"525\" class=\"round\"></line>",
            2,
        ),
        (
            "<text x=\"12\" y=\"529\" class=\"number\">rounds: 2</text>",
            1,
        ),
    ] {
        assert_eq!(rt; occurrences(&text, piece), times);
    }
    Ok(())
}

// The heads have a row of their own after 40 steps, 54 pixels high, and below them stands what the
// cells hold.
#[test]
fn heads_and_words_stand_again(rt: HostRuntime) -> Result<(), Fail> {
    let mut records = Vec::new(rt.alloc());
    records.push(step(1, 0, StepKind::Place, Part::Cell(4), (0, 1)))?;
    for number in 2..42 {
        records.push(step(number, 1, StepKind::Read, Part::Cell(4), (1, 1)))?;
    }
    let window = Window { from: 1, steps: 41 };
    let text = drawn(rt.alloc(), &[], &records, &[], window)?;
    for piece in [
        "<text x=\"274\" y=\"230\" class=\"head\">cell 4</text>",
        "<text x=\"274\" y=\"1482\" class=\"head\">cell 4</text>",
        "<text x=\"246\" y=\"1494\" class=\"word\">mark 0 0</text>",
        "<text x=\"246\" y=\"1506\" class=\"value\">empty</text>",
        "<use href=\"#read\" x=\"184\" y=\"1440\" class=\"read\">",
        "<use href=\"#read\" x=\"184\" y=\"1524\" class=\"read\">",
    ] {
        assert_eq!(rt; occurrences(&text, piece), 1);
    }
    Ok(())
}

#[test]
fn a_column_is_as_wide_as_the_longest_key(rt: HostRuntime) -> Result<(), Fail> {
    // the greatest key: 19 digits, and `key ` before them
    let greatest = 4_611_686_018_427_387_903 << 2;
    let records = [step(1, 0, StepKind::Release, Part::Cell(4), (2, greatest))];
    let text = drawn(rt.alloc(), &[], &records, &[], ALL)?;
    let column = "<rect x=\"242\" y=\"270\" width=\"169\" height=\"30\" class=\"key\"></rect>";
    assert_eq!(rt; occurrences(&text, column), 1);
    assert_eq!(rt; occurrences(&text, ">key 4611686018427387902</text>"), 1);
    Ok(())
}

#[test]
fn a_title_stands_above_and_beside_the_legend(rt: HostRuntime) -> Result<(), Fail> {
    let mut title = Vec::new(rt.alloc());
    for line in [b"first <", b"second!", b"third 3"] {
        title.push(Vec::from_slice(rt.alloc(), line)?)?;
    }
    let text = drawn(rt.alloc(), &title, &[], &[], ALL)?;
    for piece in [
        "<text x=\"12\" y=\"18\" class=\"title\">first &lt;</text>",
        "<text x=\"546\" y=\"18\" class=\"title\">second!</text>",
        "<text x=\"546\" y=\"30\" class=\"title\">third 3</text>",
    ] {
        assert_eq!(rt; occurrences(&text, piece), 1);
    }
    Ok(())
}

/// Worker 1 settles its mark to the descriptor of worker 0 after a step that left its control so.
fn settled_after(alloc: Global, control: u64) -> Result<Vec<u8>, AllocError> {
    let owner = Part::Control { worker: 0 };
    let cell = Part::Cell(4);
    let records = [
        step(1, 0, StepKind::Open, owner, (0, 1)),
        step(2, 1, StepKind::Place, cell, (0, 5)),
        step(3, 0, StepKind::Decide, owner, (1, control)),
        step(4, 1, StepKind::Settle, cell, (5, 2)),
    ];
    drawn(alloc, &[], &records, &[], ALL)
}

#[test]
fn a_late_promotion_is_told(rt: HostRuntime) -> Result<(), Fail> {
    let text = settled_after(rt.alloc(), 3)?;
    for piece in [
        "<line x1=\"100\" y1=\"360\" x2=\"308\" y2=\"360\" class=\"late\"></line>",
        "<text x=\"314\" y=\"364\" class=\"saying\">late promotion: desc 0 0 in cell 4</text>",
    ] {
        assert_eq!(rt; occurrences(&text, piece), 1);
    }
    let text = settled_after(rt.alloc(), 1)?;
    assert_eq!(rt; occurrences(&text, "late promotion: desc"), 0);
    Ok(())
}

#[test]
fn an_entry_that_changes_no_value_is_left_out(rt: HostRuntime) -> Result<(), Fail> {
    let control = Part::Control { worker: 0 };
    let first_cell = Part::EntryCell {
        worker: 0,
        entry: 0,
    };
    let other_cell = Part::EntryCell {
        worker: 0,
        entry: 1,
    };
    let other_new = Part::EntryNew {
        worker: 0,
        entry: 1,
    };
    let records = [
        step(1, 0, StepKind::Write, Part::Length { worker: 0 }, (0, 2)),
        step(2, 0, StepKind::Write, first_cell, (0, 3)),
        step(3, 0, StepKind::Write, other_cell, (0, 4)),
        step(4, 0, StepKind::Write, other_new, (0, 40)),
        step(5, 0, StepKind::Decide, control, (1, 2)),
    ];
    let text = drawn(rt.alloc(), &[], &records, &[], ALL)?;
    assert_eq!(rt;
        occurrences(&text, ">desc 0 0 succeeded; cell 4: empty -&gt; key 9<"),
        1
    );
    Ok(())
}

#[test]
fn an_act_that_changes_nothing_says_so(rt: HostRuntime) -> Result<(), Fail> {
    let control = Part::Control { worker: 0 };
    let cell = Part::EntryCell {
        worker: 0,
        entry: 0,
    };
    let records = [
        step(1, 0, StepKind::Write, Part::Length { worker: 0 }, (0, 1)),
        step(2, 0, StepKind::Write, cell, (0, 3)),
        step(3, 0, StepKind::Decide, control, (1, 2)),
    ];
    for (key, says) in [
        (
            Some(7),
            ">desc 0 0 succeeded; nothing changes: key 7 is not there<",
        ),
        (
            None,
            ">desc 0 0 succeeded; nothing changes: a key is not there<",
        ),
    ] {
        let keys = [None, None, key];
        let text = drawn(rt.alloc(), &[], &records, &keys, ALL)?;
        assert_eq!(rt; occurrences(&text, says), 1);
    }
    Ok(())
}

#[test]
fn a_play_with_no_step_is_drawn(rt: HostRuntime) -> Result<(), Fail> {
    let text = drawn(rt.alloc(), &[], &[], &[], ALL)?;
    assert!(rt; text.starts_with(b"<svg xmlns=\"http://www.w3.org/2000/svg\" width=\"540\" "));
    assert!(rt; text.ends_with(b"</svg>"));
    assert_eq!(rt; occurrences(&text, "<title>"), 0);
    Ok(())
}

#[test]
fn steps_are_counted(rt: HostRuntime) -> Result<(), Fail> {
    let records = helped(2);
    assert_eq!(rt; steps_from(&records, 0), 9);
    assert_eq!(rt; steps_from(&records, 9), 1);
    assert_eq!(rt; steps_from(&records, 10), 0);
    assert_eq!(rt; MAX_STEPS, 2000);
    Ok(())
}
