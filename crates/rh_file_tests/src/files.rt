use rh_dump::write_dump;
use rh_faulty::{FaultyReader, FaultyWriter, Refusal};
use rh_key_files::*;
use rh_layout::is_layout;
use std::alloc::Global;
use std::io::Read;
use std::process::Abort;
use std::test::*;

// The keys 17, 1 and 9.
pub(crate) const THREE_KEYS: [u8; 36] =
    *b"RHK1\0\0\0\0\0\0\0\x03\0\0\0\0\0\0\0\x11\0\0\0\0\0\0\0\x01\0\0\0\0\0\0\0\x09";

fn all_keys(alloc: Global, bytes: &[u8]) -> Result<Vec<u64>, KeyFault> {
    read_keys(alloc, &mut Counted::new(bytes))
}

const ACCEPTED: &[(&[u8], &[u64])] = &[
    (&THREE_KEYS, &[17, 1, 9]),
    (b"RHK1\0\0\0\0\0\0\0\0", &[]),
    (b"RHK2\0\0\0\0\0\0\0\0", &[]),
    (b"RHK2\0\0\0\0\0\0\0\x01\0\0\0\0\0\0\0\0", &[0]),
    (
        b"RHK2\0\0\0\0\0\0\0\x02\0\0\0\0\0\0\0\x01\0\0\0\0\0\0\0\0",
        &[1, 0],
    ),
    (
        b"RHK1\0\0\0\0\0\0\0\x01\x3f\xff\xff\xff\xff\xff\xff\xfe",
        &[4611686018427387902],
    ),
    (
        b"RHK2\0\0\0\0\0\0\0\x01\x3f\xff\xff\xff\xff\xff\xff\xfe",
        &[4611686018427387902],
    ),
];

#[test]
fn key_files_are_read(rt: HostRuntime) -> Result<(), Fail> {
    for &(bytes, keys) in ACCEPTED {
        assert_eq!(rt; all_keys(rt.alloc(), bytes)?.as_slice(), keys);
    }
    Ok(())
}

const REFUSED: &[(&[u8], KeyFault)] = &[
    (b"", KeyFault::Short),
    (b"RHK", KeyFault::Short),
    (b"RHKX", KeyFault::NotKeys),
    (b"RHK3\0\0\0\0\0\0\0\0", KeyFault::NotKeys),
    (b"RHK1\0\0\0\0\0\x0f\x42\x41", KeyFault::TooMany),
    (b"RHK1\0\0\0\0\0\x0f\x42\x40", KeyFault::Short),
    (b"RHK1\0\0\0\0\0\0\0\0\0", KeyFault::Long),
    (
        b"RHK1\0\0\0\0\0\0\0\x02\0\0\0\0\0\0\0\x01\0\0\0\0\0\0\0",
        KeyFault::Short,
    ),
    (
        b"RHK1\0\0\0\0\0\0\0\x02\0\0\0\0\0\0\0\x01\0\0\0\0\0\0\0\x09\0",
        KeyFault::Long,
    ),
    (
        b"RHK1\0\0\0\0\0\0\0\x02\0\0\0\0\0\0\0\x01\0\0\0\0\0\0\0\0",
        KeyFault::BadKey { index: 1 },
    ),
    (
        b"RHK1\0\0\0\0\0\0\0\x01\x3f\xff\xff\xff\xff\xff\xff\xff",
        KeyFault::BadKey { index: 0 },
    ),
    (
        b"RHK2\0\0\0\0\0\0\0\x01\x3f\xff\xff\xff\xff\xff\xff\xff",
        KeyFault::BadKey { index: 0 },
    ),
];

#[test]
fn other_bytes_are_refused(rt: HostRuntime) {
    for &(bytes, fault) in REFUSED {
        assert_eq!(rt; all_keys(rt.alloc(), bytes).err(), Some(fault));
    }
    for n in 0..THREE_KEYS.len() {
        assert_eq!(rt;
            all_keys(rt.alloc(), &THREE_KEYS[..n]).err(),
            Some(KeyFault::Short),
            "at {n}"
        );
    }
}

#[test]
fn each_read_fails(rt: HostRuntime) {
    // The magic, the count, the part of the three keys and the end.
    for n in 1..5u64 {
        let mut reader = Counted::new(FaultyReader::new(THREE_KEYS.as_slice(), n));
        assert_eq!(rt;
            read_keys(rt.alloc(), &mut reader).err(),
            Some(KeyFault::Read),
            "at {n}"
        );
        assert_eq!(rt; reader.failures(), 1);
    }
    let mut reader = Counted::new(FaultyReader::new(THREE_KEYS.as_slice(), 5));
    assert!(rt; read_keys(rt.alloc(), &mut reader).is_ok());
    assert_eq!(rt; reader.failures(), 0);
}

const FIVE_KEYS: &[u8] = b"RHK2\0\0\0\0\0\0\0\x05\
    \0\0\0\0\0\0\0\x05\0\0\0\0\0\0\0\0\0\0\0\0\0\0\0\x07\0\0\0\0\0\0\0\x07\0\0\0\0\0\0\0\x02";

#[test]
fn keys_come_in_batches(rt: HostRuntime) -> Result<(), Fail> {
    let mut reader = Counted::new(FIVE_KEYS);
    let mut stream = open_keys(&mut reader)?;
    assert_eq!(rt; stream.count(), 5);
    let mut batch = [0; 2];
    for (many, keys) in [
        (2, [5, 0]),
        (2, [7, 7]),
        (1, [2, 7]),
        (0, [2, 7]),
        (0, [2, 7]),
    ] {
        assert_eq!(rt; stream.next_batch(&mut batch)?, many);
        assert_eq!(rt; batch, keys);
    }
    Ok(())
}

// The next three batches of two keys end by this fault.
fn assert_ended(rt: &impl Abort, stream: &mut KeyStream<'_, impl Read>, fault: KeyFault) {
    let mut batch = [0; 2];
    for _ in 0..3u32 {
        assert_eq!(rt; stream.next_batch(&mut batch).err(), Some(fault));
    }
}

#[test]
fn a_bad_key_ends_the_stream(rt: HostRuntime) -> Result<(), Fail> {
    let mut reader = Counted::new(
        b"RHK1\0\0\0\0\0\0\0\x03\0\0\0\0\0\0\0\0\0\0\0\0\0\0\0\x01\0\0\0\0\0\0\0\x02".as_slice(),
    );
    let mut stream = open_keys(&mut reader)?;
    assert_ended(&rt, &mut stream, KeyFault::BadKey { index: 0 });
    // The batch of two keys was taken.
    assert_eq!(rt; reader.get_ref().len(), 8);
    Ok(())
}

#[test]
fn a_failed_read_ends_the_stream(rt: HostRuntime) -> Result<(), Fail> {
    let mut reader = Counted::new(FaultyReader::new(FIVE_KEYS, 3));
    let mut stream = open_keys(&mut reader)?;
    assert_ended(&rt, &mut stream, KeyFault::Read);
    assert_eq!(rt; reader.failures(), 1);
    Ok(())
}

// A key file of the keys from 0 on, of which the one with the index 4,500 is out of range. It says
// that it has 10,000 keys.
fn with_a_bad_key(alloc: Global, many: u64) -> Result<Vec<u8>, Fail> {
    let mut bytes = Vec::new(alloc);
    bytes.extend_from_slice(b"RHK2\0\0\0\0\0\0\x27\x10")?;
    for index in 0..many {
        let key = if index == 4_500 { u64::MAX } else { index };
        bytes.extend_from_slice(&key.to_be_bytes())?;
    }
    Ok(bytes)
}

#[test]
fn keys_come_in_parts(rt: HostRuntime) -> Result<(), Fail> {
    // The file ends in the first part; in the second before the bad key, within its bytes and after
    // it; in the third; and after the last key.
    for (many, cut, fault) in [
        (100, 0, KeyFault::Short),
        (4_500, 0, KeyFault::Short),
        (4_501, 1, KeyFault::Short),
        (4_501, 0, KeyFault::BadKey { index: 4_500 }),
        (4_600, 3, KeyFault::BadKey { index: 4_500 }),
        (9_000, 0, KeyFault::BadKey { index: 4_500 }),
        (10_000, 0, KeyFault::BadKey { index: 4_500 }),
    ] {
        let bytes = with_a_bad_key(rt.alloc(), many)?;
        let outcome = all_keys(rt.alloc(), &bytes[..bytes.len().saturating_sub(cut)]);
        assert_eq!(rt; outcome.err(), Some(fault), "at {many}");
    }
    Ok(())
}

#[test]
fn what_a_fault_leaves_is_still_there(rt: HostRuntime) -> Result<(), Fail> {
    // The third part has 1,808 keys.
    let bytes = with_a_bad_key(rt.alloc(), 10_000)?;
    let mut reader = Counted::new(bytes.as_slice());
    assert!(rt; read_keys(rt.alloc(), &mut reader).is_err());
    assert_eq!(rt; reader.get_ref().len(), 8 * 1_808);

    for (bytes, left) in [
        (b"RHKXmore".as_slice(), 4),
        (b"RHK1\0\0\0\0\0\x0f\x42\x41more", 4),
        (b"RHK1\0\0\0\0\0\0\0\0more", 3),
    ] {
        let mut reader = Counted::new(bytes);
        assert!(rt; read_keys(rt.alloc(), &mut reader).is_err());
        assert_eq!(rt; reader.get_ref().len(), left);
    }
    Ok(())
}

const NO_KEYS: [u64; 8] = [0; 8];

// The keys 1, 9 and 17, whose home is cell 4.
const THREE_CELLS: [u64; 8] = [0, 0, 0, 0, 2, 10, 18, 0];

const THREE_LINES: &[u8] = b"table 3 3\n4 1 0\n5 9 1\n6 17 2\nend\n";

#[test]
fn tables_are_written(rt: HostRuntime) -> Result<(), Fail> {
    for (cells, lines) in [
        (NO_KEYS, b"table 3 0\nend\n".as_slice()),
        (THREE_CELLS, THREE_LINES),
    ] {
        assert!(rt; is_layout(3, &cells));
        let mut writer = Counted::new(FaultyWriter::new(rt.alloc(), 0, Refusal::Error));
        write_dump(3, &cells, &mut writer)?;
        assert_eq!(rt; writer.get_ref().text(), lines);
        assert_eq!(rt; writer.failures(), 0);
    }
    Ok(())
}

#[test]
fn each_write_fails(rt: HostRuntime) {
    assert!(rt; is_layout(3, &THREE_CELLS));
    for refusal in [Refusal::Error, Refusal::TakesNothing] {
        // Five writes for the first line, six for each key, and one for the last line.
        for n in 1..26u64 {
            let mut writer = Counted::new(FaultyWriter::new(rt.alloc(), n, refusal));
            let outcome = write_dump(3, &THREE_CELLS, &mut writer);
            let fault = if n < 25 {
                Some(WriteFault::Write)
            } else {
                None
            };
            assert_eq!(rt; outcome.err(), fault, "at {n}");
            assert_eq!(rt; writer.failures(), u64::from(n < 25));
            assert!(rt; THREE_LINES.starts_with(writer.get_ref().text()), "at {n}");
        }
    }
}

// The keys 17, 1 and 9 in the second version.
const THREE_KEYS_AGAIN: &[u8] =
    b"RHK2\0\0\0\0\0\0\0\x03\0\0\0\0\0\0\0\x11\0\0\0\0\0\0\0\x01\0\0\0\0\0\0\0\x09";

#[test]
fn a_key_file_is_written(rt: HostRuntime) -> Result<(), Fail> {
    let mut writer = Counted::new(Vec::new(rt.alloc()));
    write_keys(&[17, 1, 9], &mut writer)?;
    assert_eq!(rt; writer.failures(), 0);
    let bytes = writer.into_inner();
    assert_eq!(rt; bytes.as_slice(), THREE_KEYS_AGAIN);
    assert_eq!(rt;
        all_keys(rt.alloc(), &bytes)?.as_slice(),
        [17, 1, 9].as_slice()
    );
    Ok(())
}

#[test]
fn each_write_of_a_key_file_fails(rt: HostRuntime) {
    for refusal in [Refusal::Error, Refusal::TakesNothing] {
        // The magic, the count and three keys.
        for n in 1..7u64 {
            let mut writer = Counted::new(FaultyWriter::new(rt.alloc(), n, refusal));
            let outcome = write_keys(&[17, 1, 9], &mut writer);
            let fault = if n < 6 { Some(WriteFault::Write) } else { None };
            assert_eq!(rt; outcome.err(), fault, "at {n}");
            assert_eq!(rt; writer.failures(), u64::from(n < 6));
            assert!(rt;
                THREE_KEYS_AGAIN.starts_with(writer.get_ref().text()),
                "at {n}"
            );
        }
    }
}

#[test]
fn texts_are_written_in_turn(rt: HostRuntime) -> Result<(), Fail> {
    let mut writer = Counted::new(Vec::new(rt.alloc()));
    write_texts(&mut writer, &[b"one, ", b"", b"two"])?;
    assert_eq!(rt; writer.failures(), 0);
    assert_eq!(rt; writer.into_inner().as_slice(), b"one, two".as_slice());
    Ok(())
}

#[test]
fn a_fault_can_be_printed(rt: HostRuntime) -> Result<(), Fail> {
    for (fault, text) in [
        (KeyFault::NotKeys, "not a key file"),
        (KeyFault::Short, "key file ends early"),
        (KeyFault::TooMany, "more than 1000000 keys"),
        (KeyFault::BadKey { index: 7 }, "key 7 is out of range"),
        (KeyFault::Long, "key file goes on after its last key"),
        (KeyFault::Read, "read failed"),
        (KeyFault::Memory, "out of memory"),
    ] {
        assert_eq!(rt; format!(in rt.alloc(); "{fault}")?.as_str(), text);
    }
    assert_eq!(rt;
        format!(in rt.alloc(); "{}", WriteFault::Write)?.as_str(),
        "cannot write the output"
    );
    Ok(())
}

#[test]
fn the_most_keys_are_these(rt: HostRuntime) {
    assert_eq!(rt; MAX_KEYS, 1_000_000);
}
