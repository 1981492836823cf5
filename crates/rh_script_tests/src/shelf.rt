use rh_faulty::{FaultyShelf, ShelfFailure};
use rh_shelf::*;
use std::alloc::Global;
use std::io::Read;
use std::test::*;

fn two_files(alloc: Global) -> Result<MemShelf, ShelfFault> {
    let mut shelf = MemShelf::new(alloc);
    shelf.put(alloc, "a", b"one")?;
    shelf.put(alloc, "b", b"three")?;
    Ok(shelf)
}

#[test]
fn a_shelf_gives_what_was_put(rt: HostRuntime) -> Result<(), Fail> {
    let mut shelf = two_files(rt.alloc())?;
    let mut bytes = [b'-'; 6];
    for (text, many, read) in [(b"one", 3, b"one---"), (b"six", 3, b"six---")] {
        // Put again, it stands in place of what stood there.
        shelf.put(rt.alloc(), "a", text)?;
        let mut reader = shelf.fetch(rt.alloc(), "a")?;
        assert_eq!(rt; reader.read(&mut bytes).ok(), Some(many));
        assert_eq!(rt; bytes, *read);
    }
    let mut reader = shelf.fetch(rt.alloc(), "b")?;
    assert_eq!(rt; reader.read(&mut bytes).ok(), Some(5));
    assert_eq!(rt; bytes, *b"three-");
    assert_eq!(rt;
        shelf.fetch(rt.alloc(), "c").err(),
        Some(ShelfFault::Missing)
    );
    Ok(())
}

#[test]
fn one_call_fails(rt: HostRuntime) -> Result<(), Fail> {
    let mut shelf = FaultyShelf::new(two_files(rt.alloc())?, ShelfFailure::Call(2));
    for fault in [None, Some(ShelfFault::Missing), None] {
        assert_eq!(rt; shelf.fetch(rt.alloc(), "a").err(), fault);
    }
    Ok(())
}

#[test]
fn one_put_fails(rt: HostRuntime) -> Result<(), Fail> {
    let mut shelf = FaultyShelf::new(two_files(rt.alloc())?, ShelfFailure::Call(2));
    // Calls of both kinds are counted: the second one of all fails.
    assert!(rt; shelf.fetch(rt.alloc(), "b").is_ok());
    for (fault, byte) in [(Some(ShelfFault::Write), b'o'), (None, b's')] {
        assert_eq!(rt; shelf.put(rt.alloc(), "a", b"six").err(), fault);
        let mut first = [0];
        let read = shelf.fetch(rt.alloc(), "a")?.read(&mut first);
        assert_eq!(rt; read.ok(), Some(1));
        assert_eq!(rt; first, [byte]);
    }
    Ok(())
}

#[test]
fn one_read_fails(rt: HostRuntime) -> Result<(), Fail> {
    let failure = ShelfFailure::Read { reader: 1, read: 2 };
    let mut shelf = FaultyShelf::new(two_files(rt.alloc())?, failure);
    // Neither call gives a reader, so the next one gives the first.
    shelf.put(rt.alloc(), "c", b"four")?;
    assert!(rt; shelf.fetch(rt.alloc(), "d").is_err());
    // How many bytes each read of a byte takes: the file has three.
    for reads in [
        [Some(1), None, Some(1), Some(1), Some(0)],
        [Some(1), Some(1), Some(1), Some(0), Some(0)],
    ] {
        let mut reader = shelf.fetch(rt.alloc(), "a")?;
        for many in reads {
            assert_eq!(rt; reader.read(&mut [0]).ok(), many);
        }
    }
    Ok(())
}

#[test]
fn a_fault_can_be_printed(rt: HostRuntime) -> Result<(), Fail> {
    for (fault, text) in [
        (ShelfFault::Missing, "cannot open the file"),
        (ShelfFault::Write, "cannot write the file"),
        (ShelfFault::Memory, "out of memory"),
    ] {
        assert_eq!(rt; format!(in rt.alloc(); "{fault}")?.as_str(), text);
    }
    Ok(())
}
