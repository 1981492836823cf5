use super::*;
use rh_faulty::{FaultyShelf, FaultyWriter, Refusal, ShelfFailure};

// What a command asks of the shelf: a list of some keys, to take a snapshot, or to give one of 8
// cells.
#[derive(Clone, Copy)]
enum Asked {
    List,
    Put,
    Snapshot,
}

impl Asked {
    fn failure(self) -> Cause {
        match self {
            Asked::Put => Cause::Put,
            _ => Cause::Missing,
        }
    }

    // The parts of a file, each one read: the magic, the count, the part of all keys and the end;
    // or the magic, the bits, the count, the cells, the seal and the end.
    fn reads(self) -> u64 {
        match self {
            Asked::List => 4,
            Asked::Put => 0,
            Asked::Snapshot => 3 + 8 + 2,
        }
    }

    fn readers(self) -> u64 {
        match self {
            Asked::Put => 0,
            _ => 1,
        }
    }

    fn failed_read(self) -> Cause {
        match self {
            Asked::Snapshot => Cause::Snap(SnapFault::Read),
            _ => Cause::Keys(KeyFault::Read),
        }
    }
}

// Scripts, what each line tells, and what the lines ask of the shelf in turn.
const SCRIPTS: &[(&str, &[&str], &[(u64, Asked)])] = &[
    (
        SCRIPT,
        TOLD,
        &[
            (1, Asked::List),
            (2, Asked::List),
            (3, Asked::List),
            (4, Asked::List),
            (5, Asked::List),
            (6, Asked::List),
            (7, Asked::List),
            (8, Asked::List),
        ],
    ),
    (
        "use a a.keys\nadd a\nsnapshot s\nclear\nrestore s\ndump\n",
        &[
            "use a 3\n",
            "add a read 3 added 3 held 3 bits 3\n",
            "snapshot s held 3 bits 3\n",
            "clear\n",
            "restore s held 3 bits 3\n",
            "table 3 3\n4 1 0\n5 9 1\n6 17 2\nend\n",
        ],
        &[
            (1, Asked::List),
            (2, Asked::List),
            (3, Asked::Put),
            (5, Asked::Snapshot),
        ],
    ),
    (
        "snapshot s\nrestore s\ndump\n",
        &[
            "snapshot s held 0 bits 3\n",
            "restore s held 0 bits 3\n",
            "table 3 0\nend\n",
        ],
        &[(1, Asked::Put), (2, Asked::Snapshot)],
    ),
];

// How a script ends over a shelf that fails so, at this line by this cause. A failed read is
// counted, and nothing else is.
fn fails_at(
    rt: &(impl Threads + Wait + Sync + Abort + AllocGlobal),
    script: &str,
    told: &[&str],
    failure: ShelfFailure,
    end: RunFault,
) -> Result<(), Fail> {
    let faulty = FaultyShelf::new(three_files(rt.alloc())?, failure);
    let mut shelf = CountedShelf::new(faulty);
    let ran = run_over(rt, &mut shelf, script)?;
    let before = told_before(rt.alloc(), told, end.line)?;
    assert_told(rt, &ran, &before, Some(end), &failure);
    let is_read = matches!(failure, ShelfFailure::Read { .. });
    assert_eq!(rt; shelf.failed_reads(), u64::from(is_read), "{failure:?}");
    if end.cause == Cause::Put {
        let found = shelf.lend(rt.alloc(), "s").err();
        assert_eq!(rt; found, Some(ShelfFault::Missing));
    }
    Ok(())
}

#[test]
fn each_call_and_each_read_fails(rt: HostRuntime) -> Result<(), Fail> {
    for &(script, told, calls) in SCRIPTS {
        let mut reader = 0_u64;
        for (call, (line, asked)) in (1..).zip(calls) {
            let line = *line;
            let cause = asked.failure();
            let end = RunFault { line, cause };
            fails_at(&rt, script, told, ShelfFailure::Call(call), end)?;
            reader = reader.saturating_add(asked.readers());
            for read in 1..=asked.reads() {
                let failure = ShelfFailure::Read { reader, read };
                let cause = asked.failed_read();
                fails_at(&rt, script, told, failure, RunFault { line, cause })?;
            }
        }
    }
    Ok(())
}

// What the commands before this line tell is written whole, and of what the next ones tell nothing.
fn is_cut_in(alloc: Global, told: &[&str], text: &[u8], line: u64) -> Result<bool, Fail> {
    let whole = told_before(alloc, told, u64::MAX)?;
    let before = told_before(alloc, told, line)?;
    let with = told_before(alloc, told, line.saturating_add(1))?;
    Ok(whole.starts_with(text) && text.starts_with(&before) && text.len() < with.len())
}

fn is_whole(alloc: Global, told: &[&str], text: &[u8]) -> Result<bool, Fail> {
    Ok(text == told_before(alloc, told, u64::MAX)?.as_slice())
}

// How the script ends where its write of this number is refused; whether it met that write.
fn write_fails(
    rt: &(impl Threads + Wait + Sync + Abort + AllocGlobal),
    script: &str,
    told: &[&str],
    n: u64,
) -> Result<bool, Fail> {
    let refusal = if n % 2 == 0 {
        Refusal::Error
    } else {
        Refusal::TakesNothing
    };
    let script = parse(rt.alloc(), script.as_bytes())?;
    let mut writer = Counted::new(FaultyWriter::new(rt.alloc(), n, refusal));
    let mut shelf = three_files(rt.alloc())?;
    let outcome = run(
        rt,
        rt.alloc(),
        &script,
        &mut shelf,
        &mut Single,
        &mut writer,
    );
    let text = writer.get_ref().text();
    let Err(fault) = outcome else {
        assert!(rt; is_whole(rt.alloc(), told, text)?);
        return Ok(false);
    };
    assert_eq!(rt; fault.cause, Cause::Write, "at {n}");
    assert!(rt; is_cut_in(rt.alloc(), told, text, fault.line)?, "at {n}");
    Ok(true)
}

#[test]
fn each_write_fails(rt: HostRuntime) -> Result<(), Fail> {
    for &(script, told, _) in SCRIPTS {
        let mut failed = 0;
        for n in 1..200 {
            if write_fails(&rt, script, told, n)? {
                failed = n;
            }
        }
        // Each line is some writes, and the last ones of these meet none.
        assert!(rt; failed > 10 && failed < 150, "{failed}");
    }
    Ok(())
}

// Of two runs the first has a shelf that fails at the fourth line, and the second one that does
// not.
#[test]
fn one_run_of_two_fails(rt: HostRuntime) -> Result<(), Fail> {
    let script = parse(rt.alloc(), SCRIPT.as_bytes())?;
    let mut shelf = FaultyShelf::new(three_files(rt.alloc())?, ShelfFailure::Call(4));
    let mut other_shelf = three_files(rt.alloc())?;
    let mut writer = Counted::new(Vec::new(rt.alloc()));
    let mut other_writer = Counted::new(FaultyWriter::new(rt.alloc(), 0, Refusal::Error));
    let (first, second) = run_twice(
        &rt,
        rt.alloc(),
        &script,
        &mut shelf,
        &mut Single,
        &mut writer,
        &mut other_shelf,
        &mut Single,
        &mut other_writer,
    );
    let cause = Cause::Missing;
    let end = RunFault { line: 4, cause };
    let before = told_before(rt.alloc(), TOLD, 4)?;
    assert_told(&rt, &(writer.into_inner(), first), &before, Some(end), &1);
    let report = Report {
        commands: 9,
        held: 0,
        bits: 3,
    };
    assert_eq!(rt; second, Ok(report));
    assert!(rt; is_whole(rt.alloc(), TOLD, other_writer.get_ref().text())?);
    Ok(())
}
