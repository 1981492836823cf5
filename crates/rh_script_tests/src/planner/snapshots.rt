use super::*;
use std::io::Read;

// The table of 1, 9 and 17 at 3 bits, whose home is cell 4, in the first version and in the second.
const FIRST: [u8; 109] = *b"RHS1\x03\0\0\0\0\0\0\0\x03\
    \0\0\0\0\0\0\0\0\0\0\0\0\0\0\0\0\0\0\0\0\0\0\0\0\0\0\0\0\0\0\0\0\
    \0\0\0\0\0\0\0\x01\0\0\0\0\0\0\0\x09\0\0\0\0\0\0\0\x11\0\0\0\0\0\0\0\0\
    \xa3\x70\xef\x48\x7b\x1f\x29\xbe\xd7\x2d\x7c\xce\xbe\x19\x71\x73\
    \x66\xe4\x1a\x11\xc5\x63\x2a\x5b\x27\x72\x04\xde\x96\xc7\xed\x09";

const SECOND: [u8; 109] = *b"RHS2\x03\0\0\0\0\0\0\0\x03\
    \0\0\0\0\0\0\0\0\0\0\0\0\0\0\0\0\0\0\0\0\0\0\0\0\0\0\0\0\0\0\0\0\
    \0\0\0\0\0\0\0\x02\0\0\0\0\0\0\0\x0a\0\0\0\0\0\0\0\x12\0\0\0\0\0\0\0\0\
    \x93\x3c\x80\x31\x4c\xee\xf5\xb1\xcc\xcf\x87\x7c\x8e\xbb\x0d\x07\
    \xad\xd0\x88\xd5\x34\xe5\xac\x93\x6e\x13\xd5\xb7\xe7\x0d\x3b\xec";

fn old_and_keys(alloc: Global) -> Result<MemShelf, Fail> {
    let mut shelf = MemShelf::new(alloc);
    shelf.put(alloc, "old", &FIRST)?;
    put_keys(alloc, &mut shelf, "k", &[1, 1, 1, 1, 1, 1, 1])?;
    Ok(shelf)
}

// Scripts over a snapshot of the first version and a key file of seven times 1, and what they tell.
const SCRIPTS: &[(&str, &str)] = &[
    (
        "snapshot s\nrestore s\ndump\n",
        "snapshot s held 0 bits 3\nrestore s held 0 bits 3\ntable 3 0\nend\n",
    ),
    // A table keeps its bits, though its keys fit a smaller one.
    (
        "use a k\nadd a\nsnapshot s\nclear\nrestore s\ndump\n",
        "use a 7\nadd a read 7 added 1 held 1 bits 4\nsnapshot s held 1 bits 4\nclear\n\
        restore s held 1 bits 4\ntable 4 1\n9 1 0\nend\n",
    ),
    (
        "use a k\nadd a\nrestore old\ndump\n",
        "use a 7\nadd a read 7 added 1 held 1 bits 4\nrestore old held 3 bits 3\n\
        table 3 3\n4 1 0\n5 9 1\n6 17 2\nend\n",
    ),
    // What is held or is done later does not change a snapshot, nor a restored one the lists.
    (
        "restore old\nsave l\nsnapshot s\nuse a k\ndrop a\nrestore s\nask l\ndrop l\nrestore s\n",
        "restore old held 3 bits 3\nsave l 3\nsnapshot s held 3 bits 3\nuse a 7\n\
        drop a read 7 removed 1 held 2 bits 3\nrestore s held 3 bits 3\nask l read 3 found 3\n\
        111\ndrop l read 3 removed 3 held 0 bits 3\nrestore s held 3 bits 3\n",
    ),
    // Two snapshots stand beside each other, and a file that the shelf had may be written over.
    (
        "snapshot s\nrestore old\nsnapshot old\nrestore s\nrestore old\n",
        "snapshot s held 0 bits 3\nrestore old held 3 bits 3\nsnapshot old held 3 bits 3\n\
        restore s held 0 bits 3\nrestore old held 3 bits 3\n",
    ),
    // A file that no list is read from has the table after a snapshot.
    (
        "snapshot k\nrestore k\n",
        "snapshot k held 0 bits 3\nrestore k held 0 bits 3\n",
    ),
];

#[test]
fn tables_are_put_and_restored(rt: HostRuntime) -> Result<(), Fail> {
    for &(script, expected) in SCRIPTS {
        let mut shelf = old_and_keys(rt.alloc())?;
        let told = run_over(&rt, &mut shelf, script)?;
        assert_told(&rt, &told, expected.as_bytes(), None, &script);
    }
    Ok(())
}

// A snapshot of the first version becomes one of the second, of the same table.
#[test]
fn the_second_version_is_put(rt: HostRuntime) -> Result<(), Fail> {
    let mut shelf = old_and_keys(rt.alloc())?;
    let (_, outcome) = run_over(&rt, &mut shelf, "restore old\nsnapshot new\n")?;
    let report = Report {
        commands: 2,
        held: 3,
        bits: 3,
    };
    assert_eq!(rt; outcome, Ok(report));
    let mut bytes = [0; 110];
    for (path, file) in [("old", FIRST), ("new", SECOND)] {
        let many = shelf.fetch(rt.alloc(), path)?.read(&mut bytes);
        assert_eq!(rt; many.ok(), Some(109));
        assert_eq!(rt; &bytes[..109], file.as_slice());
    }
    Ok(())
}

// Files that are no snapshot, and why.
const REFUSED: &[(&[u8], SnapFault)] = &[
    (b"RHS", SnapFault::Short),
    (b"RHK2\0\0\0\0\0\0\0\0", SnapFault::NotSnapshot),
    (b"RHS2\x13", SnapFault::BadBits),
    (b"RHS1\x11", SnapFault::BadBits),
];

#[test]
fn snapshots_that_are_refused(rt: HostRuntime) -> Result<(), Fail> {
    let script = "use a k\nadd a\n\nrestore x\ndump\n";
    let told = b"use a 7\nadd a read 7 added 1 held 1 bits 4\n";
    let mut damaged = SECOND;
    damaged[52] ^= 1;
    let changed = [(damaged.as_slice(), SnapFault::Damaged)];
    for (bytes, fault) in REFUSED.iter().chain(&changed) {
        let mut shelf = old_and_keys(rt.alloc())?;
        shelf.put(rt.alloc(), "x", bytes)?;
        let ran = run_over(&rt, &mut shelf, script)?;
        let cause = Cause::Snap(*fault);
        assert_told(&rt, &ran, told, Some(RunFault { line: 4, cause }), fault);
    }
    let ran = run_over(&rt, &mut old_and_keys(rt.alloc())?, script)?;
    let cause = Cause::Missing;
    assert_told(&rt, &ran, told, Some(RunFault { line: 4, cause }), &cause);
    Ok(())
}
