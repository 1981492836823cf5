//! Lists at paths, over a shelf of which the failed reads are counted.

use rh_bytes::{Counted, Nobody};
use rh_combine::{Form, How};
use rh_faulty::{FaultyShelf, ShelfFailure};
use rh_forks::{Team, Workers};
use rh_key_files::KeyFault;
use rh_list_commands::{Job, combine_files};
use rh_lists::{CommandFault, FileFault, ListFault, read_paths};
use rh_numbers::TextFault;
use rh_shelf::{CountedShelf, MemShelf, Shelf, ShelfFault};
use std::alloc::Global;
use std::test::*;
use std::thread::Threads;

// Two texts, the key file of 17, 1 and 9, and three files that are refused, the last for a key that
// is too great.
const FILES: &[(&str, &[u8])] = &[
    ("few", b"1\n9\n"),
    ("more", b"9\n17\n"),
    (
        "packed",
        b"RHK2\0\0\0\0\0\0\0\x03\0\0\0\0\0\0\0\x11\0\0\0\0\0\0\0\x01\0\0\0\0\0\0\0\x09",
    ),
    ("bad", b"1\nx\n"),
    ("short", b"RHK2\0\0\0\0\0\0\0\x03"),
    (
        "great",
        b"RHK2\0\0\0\0\0\0\0\x03\xff\xff\xff\xff\xff\xff\xff\xff",
    ),
];

// These files, of which that call or read fails.
fn shelf(alloc: Global, failure: ShelfFailure) -> Result<CountedShelf<FaultyShelf>, Fail> {
    let mut files = MemShelf::new(alloc);
    for &(path, bytes) in FILES {
        files.put(alloc, path, bytes)?;
    }
    Ok(CountedShelf::new(FaultyShelf::new(files, failure)))
}

fn paths(alloc: Global, names: &[&str]) -> Result<Vec<String>, Fail> {
    let mut paths = Vec::new(alloc);
    for name in names {
        paths.push(String::from_str(alloc, name)?)?;
    }
    Ok(paths)
}

// Calls are counted from 1.
const NEVER: ShelfFailure = ShelfFailure::Call(0);

const MISSING: FileFault = FileFault::Shelf(ShelfFault::Missing);

const TEXT_READ: FileFault = FileFault::List(ListFault::Text(TextFault::Read));

const KEYS_READ: FileFault = FileFault::List(ListFault::Keys(KeyFault::Read));

const BAD: FileFault = FileFault::List(ListFault::Text(TextFault::NotAKey { line: 2 }));

const SHORT: FileFault = FileFault::List(ListFault::Keys(KeyFault::Short));

const GREAT: FileFault = FileFault::List(ListFault::Keys(KeyFault::BadKey { index: 0 }));

// The second list, which read or call fails, the fault that is told, and how many failed reads are
// counted.
const FAULTS: &[(&str, ShelfFailure, FileFault, u64)] = &[
    ("lost", NEVER, MISSING, 0),
    ("bad", NEVER, BAD, 0),
    ("short", NEVER, SHORT, 0),
    ("more", ShelfFailure::Call(2), MISSING, 0),
    (
        "more",
        ShelfFailure::Read { reader: 2, read: 1 },
        TEXT_READ,
        1,
    ),
    (
        "more",
        ShelfFailure::Read { reader: 2, read: 2 },
        TEXT_READ,
        1,
    ),
    (
        "packed",
        ShelfFailure::Read { reader: 2, read: 2 },
        KEYS_READ,
        1,
    ),
    // The key is told, and not the read behind it.
    ("great", ShelfFailure::Read { reader: 2, read: 4 }, GREAT, 0),
];

// What is written of these lists by one worker, and how it ends.
fn union<T: Threads + Sync>(
    rt: &T,
    alloc: Global,
    shelf: &mut CountedShelf<FaultyShelf>,
    names: &[&str],
) -> Result<(Vec<u8>, Result<(), CommandFault>), Fail> {
    let paths = paths(alloc, names)?;
    let team = Team {
        rt,
        alloc,
        workers: Workers { count: 1 },
    };
    let job = Job {
        form: Form::Lines,
        paths: &paths,
        skip: 0,
    };
    let mut input = Counted::new(b"".as_slice());
    let mut writer = Counted::new(Vec::new(alloc));
    let how = How::Union;
    let outcome = combine_files(
        &team,
        &how,
        &job,
        shelf,
        &mut input,
        &mut writer,
        &mut Nobody,
    );
    Ok((writer.into_inner(), outcome))
}

#[test]
fn lists_at_paths_become_one(rt: HostRuntime) -> Result<(), Fail> {
    let mut shelf = shelf(rt.alloc(), NEVER)?;
    let (text, outcome) = union(&rt, rt.alloc(), &mut shelf, &["few", "more", "packed"])?;
    assert_eq!(rt; text.as_slice(), b"1\n9\n17\n".as_slice());
    assert_eq!(rt; outcome, Ok(()));
    assert_eq!(rt; shelf.failed_reads(), 0);
    Ok(())
}

#[test]
fn the_first_list_with_a_fault_is_told(rt: HostRuntime) -> Result<(), Fail> {
    for &(name, failure, fault, failed_reads) in FAULTS {
        let mut shelf = shelf(rt.alloc(), failure)?;
        let paths = paths(rt.alloc(), &["few", name, "lost"])?;
        let mut input = Counted::new(b"".as_slice());
        let team = Team {
            rt: &rt,
            alloc: rt.alloc(),
            workers: Workers { count: 1 },
        };
        let lists = read_paths(&team, &mut shelf, &paths, 0, &mut input, &mut Nobody);
        let told = CommandFault::List { index: 1, fault };
        assert_eq!(rt; lists.err(), Some(told), "{name} {failure:?}");
        assert_eq!(rt; shelf.failed_reads(), failed_reads, "{name} {failure:?}");
    }
    Ok(())
}

#[test]
fn nothing_is_written_of_lists_with_a_fault(rt: HostRuntime) -> Result<(), Fail> {
    for &(name, failure, fault, failed_reads) in FAULTS {
        let mut shelf = shelf(rt.alloc(), failure)?;
        let (text, outcome) = union(&rt, rt.alloc(), &mut shelf, &["few", name])?;
        let told = CommandFault::List { index: 1, fault };
        assert!(rt; text.is_empty());
        assert_eq!(rt; outcome, Err(told), "{name} {failure:?}");
        assert_eq!(rt; shelf.failed_reads(), failed_reads, "{name} {failure:?}");
    }
    Ok(())
}
