ghost use Rattle.std.specs.Prelude.{None};

use crate::files::THREE_KEYS;
use rh_faulty::{FaultyReader, FaultyWriter, Refusal};
use rh_key_files::*;
use std::io::{self, ErrorKind, Read, Write};
use std::test::*;

// What the reader still gives once it is asked again.
fn count_left(reader: &mut impl Read) -> usize {
    let mut rest = [0u8; 64];
    reader.read(&mut rest).unwrap_or(64)
}

#[test]
fn nothing_is_read_after_a_failed_read(rt: HostRuntime) {
    // Before the magic, before the count, before the keys, and before the end.
    for (n, left) in [(1, 36), (2, 32), (3, 24), (4, 0)] {
        let mut reader = Counted::new(FaultyReader::new(THREE_KEYS.as_slice(), n));
        let outcome = read_keys(rt.alloc(), &mut reader);
        assert_eq!(rt; outcome.err(), Some(KeyFault::Read), "at {n}");
        assert_eq!(rt; count_left(&mut reader), left, "at {n}");
    }
}

#[test]
fn keys_before_a_failed_read_are_tested(rt: HostRuntime) {
    // One key of two comes, and then the read fails: key 0, which the first version does not allow,
    // and key 5.
    let bad = b"RHK1\0\0\0\0\0\0\0\x02\0\0\0\0\0\0\0\0";
    let good = b"RHK1\0\0\0\0\0\0\0\x02\0\0\0\0\0\0\0\x05";
    for (bytes, fault) in [
        (bad.as_slice(), KeyFault::BadKey { index: 0 }),
        (good, KeyFault::Read),
    ] {
        let mut reader = Counted::new(FaultyReader::new(bytes, 4));
        assert_eq!(rt; read_keys(rt.alloc(), &mut reader).err(), Some(fault));
        assert_eq!(rt; reader.failures(), 1);
    }
}

#[test]
fn half_a_key_before_a_failed_read_is_none(rt: HostRuntime) {
    // Seven bytes of a key that would be 0 come, and then the read fails.
    let bytes = b"RHK1\0\0\0\0\0\0\0\x02\0\0\0\0\0\0\0";
    let mut reader = Counted::new(FaultyReader::new(bytes.as_slice(), 4));
    assert_eq!(rt;
        read_keys(rt.alloc(), &mut reader).err(),
        Some(KeyFault::Read)
    );
}

#[test]
fn each_failure_is_handed_on_and_counted(rt: HostRuntime) {
    let mut reader = Counted::new(FaultyReader::new(b"ab".as_slice(), 2));
    let mut one = [0u8; 1];
    let read = [(); 3].map(|_| reader.read(&mut one).ok());
    assert_eq!(rt; read, [Some(1), None, Some(1)]);
    assert_eq!(rt; reader.failures(), 1);
    for (refusal, told) in [(Refusal::Error, None), (Refusal::TakesNothing, Some(0))] {
        let mut writer = Counted::new(FaultyWriter::new(rt.alloc(), 2, refusal));
        let written = [(); 3].map(|_| writer.write(b"ab").ok());
        assert_eq!(rt; written, [Some(2), told, Some(2)]);
        assert_eq!(rt; writer.failures(), 1);
        assert_eq!(rt; writer.get_ref().text(), b"abab".as_slice());
    }
}

// A writer whose first flush fails.
struct Flushed {
    flushes: u64,
}

impl Write for Flushed {
    ghost contents = { λ _. None };

    fn write(&mut self, buf: &[u8]) -> io::Result<usize> {
        Ok(buf.len())
    }

    fn flush(&mut self) -> io::Result<()> {
        self.flushes = self.flushes.saturating_add(1);
        if self.flushes == 1 {
            return Err(io::Error::from(ErrorKind::Interrupted));
        }
        Ok(())
    }
}

#[test]
fn a_refused_flush_is_handed_on_and_counted(rt: HostRuntime) {
    let mut writer = Counted::new(Flushed { flushes: 0 });
    assert!(rt; writer.flush().is_err());
    assert_eq!(rt; writer.failures(), 1);
    assert_eq!(rt; writer.get_ref().flushes, 1);
    assert!(rt; writer.flush().is_ok());
    assert_eq!(rt; writer.failures(), 1);
    assert_eq!(rt; writer.get_ref().flushes, 2);
    let Flushed { flushes: _ } = writer.into_inner();
}
