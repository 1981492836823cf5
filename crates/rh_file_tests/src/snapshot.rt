use rh_faulty::FaultyReader;
use rh_key_files::Counted;
use rh_snapshot::*;
use sha2::{Digest, Sha256};
use std::alloc::{AllocError, Global};
use std::process::Abort;
use std::test::*;

fn table_of(alloc: Global, bytes: &[u8]) -> Result<Snapshot, SnapFault> {
    read_snapshot(alloc, &mut Counted::new(bytes))
}

// The keys 1, 9 and 17 at 3 bits, whose home is cell 4.
const THREE_CELLS: [u64; 8] = [0, 0, 0, 0, 2, 10, 18, 0];

const SECOND: [u8; 109] = *b"RHS2\x03\0\0\0\0\0\0\0\x03\
    \0\0\0\0\0\0\0\0\0\0\0\0\0\0\0\0\0\0\0\0\0\0\0\0\0\0\0\0\0\0\0\0\
    \0\0\0\0\0\0\0\x02\0\0\0\0\0\0\0\x0a\0\0\0\0\0\0\0\x12\0\0\0\0\0\0\0\0\
    \x93\x3c\x80\x31\x4c\xee\xf5\xb1\xcc\xcf\x87\x7c\x8e\xbb\x0d\x07\
    \xad\xd0\x88\xd5\x34\xe5\xac\x93\x6e\x13\xd5\xb7\xe7\x0d\x3b\xec";

const FIRST: [u8; 109] = *b"RHS1\x03\0\0\0\0\0\0\0\x03\
    \0\0\0\0\0\0\0\0\0\0\0\0\0\0\0\0\0\0\0\0\0\0\0\0\0\0\0\0\0\0\0\0\
    \0\0\0\0\0\0\0\x01\0\0\0\0\0\0\0\x09\0\0\0\0\0\0\0\x11\0\0\0\0\0\0\0\0\
    \xa3\x70\xef\x48\x7b\x1f\x29\xbe\xd7\x2d\x7c\xce\xbe\x19\x71\x73\
    \x66\xe4\x1a\x11\xc5\x63\x2a\x5b\x27\x72\x04\xde\x96\xc7\xed\x09";

// No key, and key 0 alone, whose home is cell 0.
const EMPTY: [u8; 109] = *b"RHS2\x03\0\0\0\0\0\0\0\0\
    \0\0\0\0\0\0\0\0\0\0\0\0\0\0\0\0\0\0\0\0\0\0\0\0\0\0\0\0\0\0\0\0\
    \0\0\0\0\0\0\0\0\0\0\0\0\0\0\0\0\0\0\0\0\0\0\0\0\0\0\0\0\0\0\0\0\
    \x91\xbd\xd0\x5e\xc8\x28\x44\x04\x2e\x9e\xee\x5a\x0a\x7b\xb9\xa9\
    \xa5\x96\xd2\xe0\xcf\xba\x8e\x8c\x41\xdd\x3a\x4b\x24\x81\x34\x88";

const KEY_0: [u8; 109] = *b"RHS2\x03\0\0\0\0\0\0\0\x01\
    \0\0\0\0\0\0\0\x01\0\0\0\0\0\0\0\0\0\0\0\0\0\0\0\0\0\0\0\0\0\0\0\0\
    \0\0\0\0\0\0\0\0\0\0\0\0\0\0\0\0\0\0\0\0\0\0\0\0\0\0\0\0\0\0\0\0\
    \xc3\x62\xea\xf4\xf0\x48\x5a\x3e\x62\x6c\xd0\x9e\x16\xfe\x8b\xc1\
    \x20\xb6\xd7\xb0\x97\x2e\x83\xd6\xc9\x76\xd5\xa5\xa4\xef\x73\xb8";

// The bytes, what they hold, and the second version of it.
const TABLES: &[(&[u8; 109], u64, [u64; 8], &[u8; 109])] = &[
    (&SECOND, 3, THREE_CELLS, &SECOND),
    (&FIRST, 3, THREE_CELLS, &SECOND),
    (&EMPTY, 0, [0, 0, 0, 0, 0, 0, 0, 0], &EMPTY),
    (&KEY_0, 1, [1, 0, 0, 0, 0, 0, 0, 0], &KEY_0),
];

#[test]
fn tables_are_read(rt: HostRuntime) -> Result<(), Fail> {
    for &(bytes, count, cells, _) in TABLES {
        let table = table_of(rt.alloc(), bytes)?;
        assert_eq!(rt; (table.bits, table.count), (3, count));
        assert_eq!(rt; table.cells.as_slice(), cells.as_slice());
        assert_eq!(rt; table.seal.as_slice(), &bytes[77..]);
    }
    Ok(())
}

#[test]
fn tables_are_written_in_the_second_version(rt: HostRuntime) -> Result<(), Fail> {
    for &(bytes, _, _, second) in TABLES {
        let table = read_snapshot(rt.alloc(), &mut Counted::new(bytes.as_slice()))?;
        let mut out = b"before".to_vec(rt.alloc())?;
        write_snapshot(rt.alloc(), table.bits, &table.cells, &mut out)?;
        assert_eq!(rt; out.len(), 115);
        assert_eq!(rt; &out[..6], b"before".as_slice());
        assert_eq!(rt; &out[6..], second.as_slice());
    }
    Ok(())
}

// The bytes of a header and of numbers, and their seal.
fn seal_bytes(
    alloc: Global,
    magic: &[u8; 4],
    count: u64,
    numbers: &[u64; 8],
) -> Result<Vec<u8>, AllocError> {
    let mut bytes = magic.to_vec(alloc)?;
    bytes.push(3)?;
    bytes.extend_from_slice(&count.to_be_bytes())?;
    for number in numbers {
        bytes.extend_from_slice(&number.to_be_bytes())?;
    }
    let seal = Sha256::digest(&bytes);
    bytes.extend_from_slice(&seal)?;
    Ok(bytes)
}

// The keys 8, 16, 5 and 21: cell 7 holds 8, cell 0 holds 16, cell 1 holds 21, cell 2 holds 5.
const ROUND_THE_END: [u64; 8] = [17, 22, 6, 0, 0, 0, 0, 9];

// A key at each home, so no cell is free: 5, 2, 7, 4, 1, 6, 3 and 8.
const FULL: [u64; 8] = [6, 3, 8, 5, 2, 7, 4, 9];

const FULL_KEYS: [u64; 8] = [5, 2, 7, 4, 1, 6, 3, 8];

// 2^62 is the cell of 2^62 - 1, which would have home 5; the greatest number would have home 3.
const NO_TABLES: &[(&[u8; 4], u64, [u64; 8])] = &[
    (b"RHS2", 4, [22, 17, 6, 0, 0, 0, 0, 9]),
    (b"RHS1", 4, [21, 16, 5, 0, 0, 0, 0, 8]),
    (b"RHS2", 3, ROUND_THE_END),
    (b"RHS2", 5, ROUND_THE_END),
    (b"RHS2", 1, [0, 0, 0, 0, 0, 1 << 62, 0, 0]),
    (b"RHS1", 1, [0, 0, 0, 0, 0, (1 << 62) - 1, 0, 0]),
    (b"RHS1", 1, [0, 0, 0, u64::MAX, 0, 0, 0, 0]),
    (b"RHS2", 8, FULL),
    (b"RHS1", 8, FULL_KEYS),
    // Numbers of one version under the magic of the other.
    (b"RHS1", 3, [0, 0, 0, 0, 2, 10, 18, 0]),
    (b"RHS2", 3, [0, 0, 0, 0, 1, 9, 17, 0]),
];

#[test]
fn sealed_tables_are_read(rt: HostRuntime) -> Result<(), Fail> {
    for (magic, numbers) in [
        (b"RHS2", ROUND_THE_END),
        (b"RHS1", [16, 21, 5, 0, 0, 0, 0, 8]),
    ] {
        let bytes = seal_bytes(rt.alloc(), magic, 4, &numbers)?;
        let table = table_of(rt.alloc(), &bytes)?;
        assert_eq!(rt; table.count, 4);
        assert_eq!(rt; table.cells.as_slice(), ROUND_THE_END.as_slice());
    }
    Ok(())
}

// The greatest key, 2^62 - 2, has home 0.
#[test]
fn the_greatest_key_is_read(rt: HostRuntime) -> Result<(), Fail> {
    for (magic, number) in [(b"RHS2", (1 << 62) - 1), (b"RHS1", (1 << 62) - 2)] {
        let bytes = seal_bytes(rt.alloc(), magic, 1, &[number, 0, 0, 0, 0, 0, 0, 0])?;
        let table = table_of(rt.alloc(), &bytes)?;
        assert_eq!(rt; table.cells.first().copied(), Some((1 << 62) - 1));
    }
    Ok(())
}

// The bytes are refused by this fault.
fn assert_refused(rt: &(impl Abort + AllocGlobal), bytes: &[u8], fault: SnapFault) {
    let found = table_of(rt.alloc(), bytes).err();
    assert_eq!(rt; found, Some(fault), "{bytes:?}");
}

#[test]
fn sealed_bytes_that_are_no_layout_are_refused(rt: HostRuntime) -> Result<(), Fail> {
    for &(magic, count, numbers) in NO_TABLES {
        let mut bytes = seal_bytes(rt.alloc(), magic, count, &numbers)?;
        assert_refused(&rt, &bytes, SnapFault::NotALayout);
        // A byte more, which is found after the cells, and a bit of the seal, found before them.
        bytes.push(0)?;
        assert_refused(&rt, &bytes, SnapFault::NotALayout);
        if let Some(byte) = bytes.get_mut(108) {
            *byte ^= 1;
        }
        assert_refused(&rt, &bytes, SnapFault::Damaged);
    }
    Ok(())
}

#[test]
fn bytes_that_end_early_or_go_on_are_refused(rt: HostRuntime) -> Result<(), Fail> {
    for whole in [FIRST, SECOND] {
        for n in 0..whole.len() {
            assert_refused(&rt, &whole[..n], SnapFault::Short);
        }
        let mut longer = whole.to_vec(rt.alloc())?;
        longer.push(0)?;
        assert_refused(&rt, &longer, SnapFault::Long);
    }
    Ok(())
}

const REFUSED: &[(&[u8], SnapFault)] = &[
    (b"RHS3\x03", SnapFault::NotSnapshot),
    (b"RHK2\x03", SnapFault::NotSnapshot),
    (b"RHS1\x02", SnapFault::BadBits),
    (b"RHS1\x11", SnapFault::BadBits),
    (b"RHS2\x02", SnapFault::BadBits),
    (b"RHS2\x13", SnapFault::BadBits),
    (b"RHS1\x10\0\0\0\0\0\0\0\0", SnapFault::Short),
    (b"RHS2\x11\0\0\0\0\0\0\0\0", SnapFault::Short),
    (b"RHS2\x12\0\0\0\0\0\0\0\0", SnapFault::Short),
];

#[test]
fn other_bytes_are_refused(rt: HostRuntime) {
    for &(bytes, fault) in REFUSED {
        assert_refused(&rt, bytes, fault);
    }
}

#[test]
fn each_bit_changed(rt: HostRuntime) {
    for whole in [FIRST, SECOND] {
        let mut counts = [0u32; 5];
        for byte in 0..whole.len() {
            for bit in 0..8u32 {
                let mut bytes = whole;
                bytes[byte] ^= 1 << bit;
                let place = match table_of(rt.alloc(), &bytes).err() {
                    Some(SnapFault::NotSnapshot) => 0,
                    Some(SnapFault::BadBits) => 1,
                    Some(SnapFault::Short) => 2,
                    Some(SnapFault::Damaged) => 3,
                    _ => 4usize,
                };
                counts[place] = counts[place].saturating_add(1);
            }
        }
        assert_eq!(rt; counts, [32, 6, 2, 832, 0]);
    }
}

// The byte of bits is 3. With one bit of it changed it says a larger table, for which there are too
// few cells, at 7 and 11, and no table at all else.
#[test]
fn the_byte_of_bits_is_changed(rt: HostRuntime) {
    for whole in [FIRST, SECOND] {
        for bit in 0..8u32 {
            let mut bytes = whole;
            bytes[4] ^= 1 << bit;
            let fault = match bytes[4] {
                7 | 11 => SnapFault::Short,
                _ => SnapFault::BadBits,
            };
            assert_refused(&rt, &bytes, fault);
        }
    }
}

#[test]
fn each_read_fails(rt: HostRuntime) {
    for whole in [FIRST, SECOND] {
        // The magic, the bits, the count, eight numbers, the seal and the end.
        for n in 1..14u64 {
            let mut reader = Counted::new(FaultyReader::new(whole.as_slice(), n));
            let fault = read_snapshot(rt.alloc(), &mut reader).err();
            assert_eq!(rt; fault, Some(SnapFault::Read), "at {n}");
            assert_eq!(rt; reader.failures(), 1);
        }
        let mut reader = Counted::new(FaultyReader::new(whole.as_slice(), 14));
        assert!(rt; read_snapshot(rt.alloc(), &mut reader).is_ok());
        assert_eq!(rt; reader.failures(), 0);
    }
}

#[test]
fn a_fault_can_be_printed(rt: HostRuntime) -> Result<(), Fail> {
    for (fault, text) in [
        (SnapFault::NotSnapshot, "not a snapshot"),
        (SnapFault::Short, "snapshot ends early"),
        (SnapFault::BadBits, "bits out of range"),
        (SnapFault::Damaged, "seal does not match"),
        (SnapFault::NotALayout, "cells are not a layout"),
        (SnapFault::Long, "snapshot goes on after its seal"),
        (SnapFault::Read, "read failed"),
        (SnapFault::Memory, "out of memory"),
    ] {
        assert_eq!(rt; format!(in rt.alloc(); "{fault}")?.as_str(), text);
    }
    Ok(())
}
