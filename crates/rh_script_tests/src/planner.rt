use rh_key_files::{Counted, KeyFault, write_keys};
use rh_runner::Single;
use rh_script::parse;
use rh_script_run::*;
use rh_shelf::{CountedShelf, Lender, MemShelf, Shelf, ShelfFault};
use rh_snapshot::SnapFault;
use std::alloc::Global;
use std::fmt::Debug;
use std::io::Cursor;
use std::process::Abort;
use std::sync::Wait;
use std::test::*;
use std::thread::Threads;

mod changing;
mod failures;
mod snapshots;

// A key file of these keys.
fn key_file(alloc: Global, keys: &[u64]) -> Result<Vec<u8>, Fail> {
    let mut file = Counted::new(Vec::new(alloc));
    if keys.len() < 1_000_000 && keys.iter().all(|key| *key < 1_000_000) {
        write_keys(keys, &mut file)?;
    }
    Ok(file.into_inner())
}

fn put_keys(alloc: Global, shelf: &mut MemShelf, path: &str, keys: &[u64]) -> Result<(), Fail> {
    let file = key_file(alloc, keys)?;
    shelf.put(alloc, path, &file)?;
    Ok(())
}

fn three_files(alloc: Global) -> Result<MemShelf, Fail> {
    let mut shelf = MemShelf::new(alloc);
    put_keys(alloc, &mut shelf, "a.keys", &[1, 9, 17])?;
    put_keys(alloc, &mut shelf, "b.keys", &[2, 10])?;
    put_keys(alloc, &mut shelf, "c.keys", &[1, 2, 9])?;
    Ok(shelf)
}

const SCRIPT: &str = "\
    use a a.keys\nuse b b.keys\nuse c c.keys\nadd a\nask c\nflip b\nflip b\nkeep b\ndump\n";

// What each line of the script tells, and where its text begins and ends is by line.
const TOLD: &[&str] = &[
    "use a 3\n",
    "use b 2\n",
    "use c 3\n",
    "add a read 3 added 3 held 3 bits 3\n",
    "ask c read 3 found 2\n101\n",
    "flip b read 2 removed 0 added 2 held 5 bits 3\n",
    "flip b read 2 removed 2 added 0 held 3 bits 3\n",
    "keep b read 2 found 0 held 0 bits 3\n",
    "table 3 0\nend\n",
];

// What the commands before this line tell, of these, one for each line.
fn told_before(alloc: Global, told: &[&str], line: u64) -> Result<Vec<u8>, Fail> {
    let mut text = Vec::new(alloc);
    for told in told.iter().take((line as usize).saturating_sub(1)) {
        text.extend_from_slice(told.as_bytes())?;
    }
    Ok(text)
}

// What a script told, and how it ended.
type Told = (Vec<u8>, Result<Report, RunFault>);

// What a script tells over these files, and how it ends.
fn run_over(
    rt: &(impl Threads + Wait + Sync + AllocGlobal),
    shelf: &mut impl Lender,
    script: &str,
) -> Result<Told, Fail> {
    let script = parse(rt.alloc(), script.as_bytes())?;
    let mut writer = Counted::new(Vec::new(rt.alloc()));
    let outcome = run(rt, rt.alloc(), &script, shelf, &mut Single, &mut writer);
    Ok((writer.into_inner(), outcome))
}

// The script told this text and ended by this fault; `case` says which script it was.
fn assert_told(
    rt: &impl Abort,
    told: &Told,
    text: &[u8],
    fault: Option<RunFault>,
    case: &impl Debug,
) {
    assert_eq!(rt; told.0.as_slice(), text, "{case:?}");
    assert_eq!(rt; told.1.err(), fault, "{case:?}");
}

#[test]
fn a_script_is_carried_out(rt: HostRuntime) -> Result<(), Fail> {
    let mut shelf = three_files(rt.alloc())?;
    let told = run_over(&rt, &mut shelf, SCRIPT)?;
    let whole = told_before(rt.alloc(), TOLD, 10)?;
    assert_told(&rt, &told, &whole, None, &SCRIPT);
    let report = Report {
        commands: 9,
        held: 0,
        bits: 3,
    };
    assert_eq!(rt; told.1, Ok(report));
    Ok(())
}

// The keys of a file `k`, a script, and what it tells, worked out by hand from the homes.
const SMALL: &[(&[u64], &str, &str)] = &[
    (
        &[1, 1, 1, 1, 1, 1, 1],
        "use a k\nadd a\ndump\n",
        "use a 7\nadd a read 7 added 1 held 1 bits 4\ntable 4 1\n9 1 0\nend\n",
    ),
    (
        &[1, 2],
        "use b k\nadd b\nkeep b\ndump\n",
        "use b 2\nadd b read 2 added 2 held 2 bits 3\nkeep b read 2 found 2 held 2 bits 3\n\
        table 3 2\n1 2 0\n4 1 0\nend\n",
    ),
    (
        &[9, 1, 9],
        "use a k\nadd a\nsave s\nclear\nask s\nadd s\ndrop a\ndump\n",
        "use a 3\nadd a read 3 added 2 held 2 bits 3\nsave s 2\nclear\nask s read 2 found 0\n00\n\
        add s read 2 added 2 held 2 bits 3\ndrop a read 3 removed 2 held 0 bits 3\n\
        table 3 0\nend\n",
    ),
    (&[5], "# nothing\n\n", ""),
    (
        &[],
        "use a k\nask a\nflip a\n",
        "use a 0\nask a read 0 found 0\n\
        flip a read 0 removed 0 added 0 held 0 bits 3\n",
    ),
];

#[test]
fn small_scripts(rt: HostRuntime) -> Result<(), Fail> {
    for &(keys, script, expected) in SMALL {
        let mut shelf = MemShelf::new(rt.alloc());
        put_keys(rt.alloc(), &mut shelf, "k", keys)?;
        let told = run_over(&rt, &mut shelf, script)?;
        assert_told(&rt, &told, expected.as_bytes(), None, &script);
    }
    Ok(())
}

// Seven keys do not fit 3 bits; the two that are kept do.
#[test]
fn keep_makes_the_table_small(rt: HostRuntime) -> Result<(), Fail> {
    let mut shelf = MemShelf::new(rt.alloc());
    put_keys(rt.alloc(), &mut shelf, "a", &[1, 2, 3, 4, 5, 6, 7])?;
    put_keys(rt.alloc(), &mut shelf, "b", &[1, 2])?;
    let script = "use a a\nuse b b\nadd a\ndump\nkeep b\ndump\n";
    let told = run_over(&rt, &mut shelf, script)?;
    let expected = "use a 7\nuse b 2\nadd a read 7 added 7 held 7 bits 4\n\
        table 4 7\n1 5 0\n3 2 0\n5 7 0\n7 4 0\n9 1 0\n11 6 0\n13 3 0\nend\n\
        keep b read 2 found 2 held 2 bits 3\ntable 3 2\n1 2 0\n4 1 0\nend\n";
    assert_told(&rt, &told, expected.as_bytes(), None, &script);
    Ok(())
}

// How many keys, from 1 on, the script, the text, and the line and the cause of its end.
const LARGE: &[(u64, &str, &str, Option<(u64, Cause)>)] = &[
    (
        10_000,
        "use k k\nadd k\nflip k\n",
        "use k 10000\nadd k read 10000 added 10000 held 10000 bits 14\n\
        flip k read 10000 removed 10000 added 0 held 0 bits 14\n",
        None,
    ),
    (
        49_152,
        "use k k\nadd k\n",
        "use k 49152\nadd k read 49152 added 49152 held 49152 bits 16\n",
        None,
    ),
    (
        49_153,
        "use k k\nadd k\nclear\n",
        "use k 49153\nadd k read 49153 added 49153 held 49153 bits 17\nclear\n",
        None,
    ),
    (
        196_608,
        "use k k\nadd k\n",
        "use k 196608\nadd k read 196608 added 196608 held 196608 bits 18\n",
        None,
    ),
    (
        196_609,
        "use k k\nadd k\n",
        "use k 196609\n",
        Some((2, Cause::TooLarge)),
    ),
];

#[test]
fn large_lists(rt: HostRuntime) -> Result<(), Fail> {
    for &(many, script, expected, end) in LARGE {
        let mut keys = Vec::new(rt.alloc());
        for key in 1..=many {
            keys.push(key)?;
        }
        let mut shelf = MemShelf::new(rt.alloc());
        put_keys(rt.alloc(), &mut shelf, "k", &keys)?;
        let told = run_over(&rt, &mut shelf, script)?;
        let fault = end.map(|(line, cause)| RunFault { line, cause });
        assert_told(&rt, &told, expected.as_bytes(), fault, &many);
    }
    Ok(())
}

fn lines_of_ones(text: &[u8], digits: usize) -> usize {
    let lines = text.split(|b| *b == b'\n');
    let lines = lines.filter(|line| line.len() == digits && line.iter().all(|b| *b == b'1'));
    lines.count()
}

// A line of 64 digits for each 64 keys, and one for what is left.
#[test]
fn answers_stand_64_on_a_line(rt: HostRuntime) -> Result<(), Fail> {
    let mut keys = Vec::new(rt.alloc());
    for key in 1..=10_000 {
        keys.push(key)?;
    }
    let mut shelf = MemShelf::new(rt.alloc());
    put_keys(rt.alloc(), &mut shelf, "k", &keys)?;
    let (text, _) = run_over(&rt, &mut shelf, "use k k\nadd k\nask k\n")?;
    for (digits, lines) in [(64, 156), (16, 1)] {
        assert_eq!(rt; lines_of_ones(&text, digits), lines, "{digits}");
    }
    Ok(())
}

// Key files that are refused, and why: the last ones name two keys, and have 15 bytes of them, 17,
// or both.
const REFUSED: &[(&[u8], KeyFault)] = &[
    (b"RHK", KeyFault::Short),
    (b"RHKX", KeyFault::NotKeys),
    (b"RHK2\0\0\0\0\0\x0f\x42\x41", KeyFault::TooMany),
    (b"RHK2\0\0\0\0\0\0\0\0\0", KeyFault::Long),
    (
        b"RHK1\0\0\0\0\0\0\0\x02\0\0\0\0\0\0\0\x01\0\0\0\0\0\0\0",
        KeyFault::Short,
    ),
    (
        b"RHK1\0\0\0\0\0\0\0\x02\0\0\0\0\0\0\0\x01\0\0\0\0\0\0\0\x09\0",
        KeyFault::Long,
    ),
    (
        b"RHK1\0\0\0\0\0\0\0\x02\0\0\0\0\0\0\0\x01\0\0\0\0\0\0\0\0",
        KeyFault::BadKey { index: 1 },
    ),
];

// A run ends where a file is refused, so the table is looked at in the snapshot that was put
// before, and none is put after it.
#[test]
fn files_that_are_refused(rt: HostRuntime) -> Result<(), Fail> {
    for &(bytes, fault) in REFUSED {
        let mut shelf = three_files(rt.alloc())?;
        shelf.put(rt.alloc(), "x", bytes)?;
        let script = "use a a.keys\nadd a\n\nsnapshot s\nuse x x\nclear\nsnapshot t\n";
        let told = run_over(&rt, &mut shelf, script)?;
        let before = "use a 3\nadd a read 3 added 3 held 3 bits 3\nsnapshot s held 3 bits 3\n";
        let cause = Cause::Keys(fault);
        let end = RunFault { line: 5, cause };
        assert_told(&rt, &told, before.as_bytes(), Some(end), &fault);

        let told = run_over(&rt, &mut shelf, "restore s\ndump\nrestore t\n")?;
        let table = "restore s held 3 bits 3\ntable 3 3\n4 1 0\n5 9 1\n6 17 2\nend\n";
        let cause = Cause::Missing;
        let end = RunFault { line: 3, cause };
        assert_told(&rt, &told, table.as_bytes(), Some(end), &fault);
    }
    let told = run_over(&rt, &mut MemShelf::new(rt.alloc()), "use a x\n")?;
    let cause = Cause::Missing;
    assert_told(&rt, &told, b"", Some(RunFault { line: 1, cause }), &cause);
    Ok(())
}

#[test]
fn texts_of_faults(rt: HostRuntime) -> Result<(), Fail> {
    let texts = [
        (Cause::Missing, "line 7: cannot open the file"),
        (Cause::Keys(KeyFault::Short), "line 7: key file ends early"),
        (
            Cause::Snap(SnapFault::Damaged),
            "line 7: seal does not match",
        ),
        (Cause::Changed, "line 7: key file has changed"),
        (Cause::TooLarge, "line 7: table too large"),
        (Cause::Memory, "line 7: out of memory"),
        (Cause::NoThread, "line 7: cannot start a worker"),
        (Cause::Put, "line 7: cannot write the snapshot"),
        (Cause::Write, "line 7: cannot write the output"),
    ];
    for (cause, text) in texts {
        let told = format!(in rt.alloc(); "{}", RunFault { line: 7, cause })?;
        assert_eq!(rt; told.as_str(), text);
    }
    Ok(())
}
