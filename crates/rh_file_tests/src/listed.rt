//! Files that are listed one after the other.

use rh_faulty::{FaultyShelf, FaultyWriter, Refusal, ShelfFailure};
use rh_key_files::{Counted, KeyFault};
use rh_key_texts::*;
use rh_shelf::{CountedShelf, Lender, MemShelf, Shelf, ShelfFault};
use rh_snapshot::SnapFault;
use std::alloc::Global;
use std::test::*;

// The keys 17, 1 and 9, none, and 4.
const KEY_FILES: &[(&str, &[u8])] = &[
    (
        "three",
        b"RHK2\0\0\0\0\0\0\0\x03\0\0\0\0\0\0\0\x11\0\0\0\0\0\0\0\x01\0\0\0\0\0\0\0\x09",
    ),
    ("none", b"RHK1\0\0\0\0\0\0\0\0"),
    ("four", b"RHK2\0\0\0\0\0\0\0\x01\0\0\0\0\0\0\0\x04"),
    ("long", b"RHK2\0\0\0\0\0\0\0\x01\0\0\0\0\0\0\0\x04."),
    ("text", b"1\n2\n"),
];

fn shelf(alloc: Global) -> Result<MemShelf, Fail> {
    let mut shelf = MemShelf::new(alloc);
    for &(path, bytes) in KEY_FILES {
        shelf.put(alloc, path, bytes)?;
    }
    Ok(shelf)
}

fn paths(alloc: Global, names: &[&str]) -> Result<Vec<String>, Fail> {
    let mut paths = Vec::new(alloc);
    for name in names {
        paths.push(String::from_str(alloc, name)?)?;
    }
    Ok(paths)
}

// What is written of these files, and how it ends.
fn listed<S: Lender>(
    alloc: Global,
    shelf: &mut S,
    names: &[&str],
    form: Form,
) -> Result<(Vec<u8>, Option<FaultAt>), Fail> {
    let paths = paths(alloc, names)?;
    let mut writer = Counted::new(Vec::new(alloc));
    let outcome = list_files(alloc, shelf, &paths, form, &mut writer);
    Ok((writer.into_inner(), outcome.err()))
}

#[test]
fn files_are_listed_one_after_the_other(rt: HostRuntime) -> Result<(), Fail> {
    let mut shelf = shelf(rt.alloc())?;
    for (names, text) in [
        (["four", "none", "three"], b"4\n17\n1\n9\n".as_slice()),
        (["three", "four", "four"], b"17\n1\n9\n4\n4\n"),
    ] {
        let told = listed(rt.alloc(), &mut shelf, &names, Form::Keys)?;
        assert_eq!(rt; told.0.as_slice(), text);
        assert_eq!(rt; told.1, None);
    }
    let told = listed(rt.alloc(), &mut shelf, &[], Form::Snapshot)?;
    assert!(rt; told.0.is_empty() && told.1.is_none());
    Ok(())
}

const REFUSALS: &[(&str, Form, FileFault)] = &[
    ("lost", Form::Keys, FileFault::Shelf(ShelfFault::Missing)),
    ("text", Form::Keys, FileFault::Keys(KeyFault::NotKeys)),
    ("long", Form::Keys, FileFault::Keys(KeyFault::Long)),
    (
        "lost",
        Form::Snapshot,
        FileFault::Shelf(ShelfFault::Missing),
    ),
    (
        "three",
        Form::Snapshot,
        FileFault::Snap(SnapFault::NotSnapshot),
    ),
];

#[test]
fn the_first_file_that_is_refused_is_told(rt: HostRuntime) -> Result<(), Fail> {
    let mut shelf = shelf(rt.alloc())?;
    for &(name, form, fault) in REFUSALS {
        let told = listed(rt.alloc(), &mut shelf, &[name, "lost", "text"], form)?;
        assert!(rt; told.0.is_empty(), "{name}");
        assert_eq!(rt; told.1, Some(FaultAt { index: 0, fault }), "{name}");
    }
    for &(name, form, fault) in REFUSALS {
        if form == Form::Snapshot {
            continue;
        }
        let told = listed(
            rt.alloc(),
            &mut shelf,
            &["three", "four", name, "lost"],
            form,
        )?;
        assert_eq!(rt; told.0.as_slice(), b"17\n1\n9\n4\n".as_slice(), "{name}");
        assert_eq!(rt; told.1, Some(FaultAt { index: 2, fault }), "{name}");
    }
    Ok(())
}

#[test]
fn each_call_and_each_read_fails(rt: HostRuntime) -> Result<(), Fail> {
    for n in 1..3u64 {
        let failure = ShelfFailure::Call(n);
        let mut faulty = CountedShelf::new(FaultyShelf::new(shelf(rt.alloc())?, failure));
        let told = listed(rt.alloc(), &mut faulty, &["four", "three"], Form::Keys)?;
        let fault = FileFault::Shelf(ShelfFault::Missing);
        let index = if n == 1 { 0 } else { 1 };
        assert_eq!(rt; told.1, Some(FaultAt { index, fault }));
        assert_eq!(rt; faulty.failed_reads(), 0);
    }
    for n in 1..5u64 {
        let failure = ShelfFailure::Read { reader: 2, read: n };
        let mut faulty = CountedShelf::new(FaultyShelf::new(shelf(rt.alloc())?, failure));
        let told = listed(rt.alloc(), &mut faulty, &["four", "three"], Form::Keys)?;
        let fault = FileFault::Keys(KeyFault::Read);
        assert_eq!(rt; told.0.as_slice(), b"4\n".as_slice());
        assert_eq!(rt; told.1, Some(FaultAt { index: 1, fault }));
        assert_eq!(rt; faulty.failed_reads(), 1);
    }
    let failure = ShelfFailure::Read { reader: 1, read: 1 };
    let mut faulty = CountedShelf::new(FaultyShelf::new(shelf(rt.alloc())?, failure));
    let told = listed(rt.alloc(), &mut faulty, &["four"], Form::Snapshot)?;
    let fault = FileFault::Snap(SnapFault::Read);
    assert_eq!(rt; told.1, Some(FaultAt { index: 0, fault }));
    assert_eq!(rt; faulty.failed_reads(), 1);
    Ok(())
}

// No read of it failed.
#[test]
fn a_file_that_is_refused_is_no_failed_read(rt: HostRuntime) -> Result<(), Fail> {
    let mut counted = CountedShelf::new(shelf(rt.alloc())?);
    for &(name, form, fault) in REFUSALS {
        let told = listed(rt.alloc(), &mut counted, &[name], form)?;
        assert_eq!(rt; told.1, Some(FaultAt { index: 0, fault }), "{name}");
        assert_eq!(rt; counted.failed_reads(), 0, "{name}");
    }
    Ok(())
}

// Two for each number.
#[test]
fn each_write_fails(rt: HostRuntime) -> Result<(), Fail> {
    let paths = paths(rt.alloc(), &["four", "three"])?;
    for n in 1..10u64 {
        let mut writer = Counted::new(FaultyWriter::new(rt.alloc(), n, Refusal::Error));
        let mut shelf = shelf(rt.alloc())?;
        let outcome = list_files(rt.alloc(), &mut shelf, &paths, Form::Keys, &mut writer);
        let told = outcome.err().map(|e| e.fault);
        assert_eq!(rt; told, (n < 9).then_some(FileFault::Write));
        assert_eq!(rt; writer.failures(), u64::from(n < 9));
    }
    Ok(())
}

#[test]
fn a_fault_of_a_file_can_be_printed(rt: HostRuntime) -> Result<(), Fail> {
    for (fault, text) in [
        (
            FileFault::Shelf(ShelfFault::Missing),
            "cannot open the file",
        ),
        (FileFault::Keys(KeyFault::NotKeys), "not a key file"),
        (FileFault::Snap(SnapFault::Damaged), "seal does not match"),
        (FileFault::Write, "cannot write the output"),
    ] {
        let said = format!(in rt.alloc(); "{fault}")?;
        assert_eq!(rt; said.as_str(), text);
    }
    Ok(())
}
