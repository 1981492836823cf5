use rh_commands::*;
use rh_dump::write_dump;
use rh_edit::SeqSet;
use rh_faulty::{FaultyReader, FaultyWriter, Refusal};
use rh_grow::grow;
use rh_key_files::{Counted, KeyFault};
use rh_layout::is_layout;
use std::alloc::{AllocError, Global};
use std::io::Read;
use std::test::Fail;

const OLD: &[u8; 4] = b"RHK1";

const NEW: &[u8; 4] = b"RHK2";

// The keys 17, 1 and 9, in the first version. With `2` for `1` in its fourth byte it is one of the
// second.
const THREE_KEYS: [u8; 36] =
    *b"RHK1\0\0\0\0\0\0\0\x03\0\0\0\0\0\0\0\x11\0\0\0\0\0\0\0\x01\0\0\0\0\0\0\0\x09";

const THREE_DUMP: &str = "table 3 3\n4 1 0\n5 9 1\n6 17 2\nend\n";

// A key file of these keys.
fn key_file(alloc: Global, magic: &[u8; 4], keys: &[u64]) -> Result<Vec<u8>, AllocError> {
    let mut bytes = magic.as_slice().to_vec(alloc)?;
    bytes.extend_from_slice(&(keys.len() as u64).to_be_bytes())?;
    for key in keys {
        bytes.extend_from_slice(&key.to_be_bytes())?;
    }
    Ok(bytes)
}

// The dump of what is read, or its fault where nothing was written.
fn dump_by(alloc: Global, reader: &mut Counted<impl Read>) -> Result<Vec<u8>, Option<DumpFault>> {
    let mut writer = Counted::new(Vec::new(alloc));
    let outcome = dump_keys(alloc, reader, &mut writer);
    let written = writer.into_inner();
    match outcome {
        Ok(()) => Ok(written),
        Err(fault) if written.is_empty() => Err(Some(fault)),
        Err(_) => Err(None),
    }
}

fn dump_of(alloc: Global, bytes: &[u8]) -> Result<Vec<u8>, Option<DumpFault>> {
    dump_by(alloc, &mut Counted::new(bytes))
}

// The keys in the order in which they are added, and the lines of the dump.
const DUMPS: &[(&[u8; 4], &[u64], &str)] = &[
    (OLD, &[], "table 3 0\nend\n"),
    (OLD, &[17, 1, 9], THREE_DUMP),
    (NEW, &[17, 1, 9], THREE_DUMP),
    (
        OLD,
        &[8, 16, 5, 21],
        "table 3 4\n0 16 1\n1 21 2\n2 5 2\n7 8 0\nend\n",
    ),
    (
        OLD,
        &[1, 9, 17, 6, 14, 3],
        "table 3 6\n0 14 3\n1 3 3\n4 1 0\n5 9 1\n6 17 2\n7 6 2\nend\n",
    ),
    (OLD, &[1, 1, 1, 1, 1, 1, 1], "table 4 1\n9 1 0\nend\n"),
    (
        OLD,
        &[1, 2, 3, 4, 5, 6, 7],
        "table 4 7\n1 5 0\n3 2 0\n5 7 0\n7 4 0\n9 1 0\n11 6 0\n13 3 0\nend\n",
    ),
    (
        OLD,
        &[4611686018427387902],
        "table 3 1\n0 4611686018427387902 0\nend\n",
    ),
    (NEW, &[13, 0, 5], "table 3 3\n0 0 0\n1 5 1\n2 13 2\nend\n"),
];

#[test]
fn keys_become_a_dump(rt: HostRuntime) -> Result<(), Fail> {
    for &(magic, keys, text) in DUMPS {
        let bytes = key_file(rt.alloc(), magic, keys)?;
        let written = dump_of(rt.alloc(), &bytes).map_err(|_| "refused")?;
        assert_eq!(rt; written.as_slice(), text.as_bytes(), "of {keys:?}");
    }
    Ok(())
}

// So many keys, from 1 on, and the first line of the dump.
const SIZES: &[(u64, &str)] = &[
    (49_152, "table 16 49152\n"),
    (49_153, "table 17 49153\n"),
    (196_608, "table 18 196608\n"),
];

#[test]
fn a_table_has_the_least_bits(rt: HostRuntime) -> Result<(), Fail> {
    for &(count, line) in SIZES {
        let keys: Vec<u64> = (1..count + 1).collect(rt.alloc())?;
        let bytes = key_file(rt.alloc(), NEW, &keys)?;
        let written = dump_of(rt.alloc(), &bytes).map_err(|_| "refused")?;
        assert!(rt; written.starts_with(line.as_bytes()), "at {count}");
    }
    let keys: Vec<u64> = (1..196_610).collect(rt.alloc())?;
    let bytes = key_file(rt.alloc(), NEW, &keys)?;
    assert_eq!(rt;
        dump_of(rt.alloc(), &bytes).err(),
        Some(Some(DumpFault::TooLarge))
    );
    Ok(())
}

const REFUSED: &[(&[u8], KeyFault)] = &[
    (b"RHK", KeyFault::Short),
    (b"RHKX", KeyFault::NotKeys),
    (b"RHK1\0\0\0\0\0\x0f\x42\x41", KeyFault::TooMany),
    (
        b"RHK1\0\0\0\0\0\0\0\x02\0\0\0\0\0\0\0\x01\0\0\0\0\0\0\0",
        KeyFault::Short,
    ),
    (
        b"RHK1\0\0\0\0\0\0\0\x02\0\0\0\0\0\0\0\x01\0\0\0\0\0\0\0\x09\0",
        KeyFault::Long,
    ),
    (
        b"RHK1\0\0\0\0\0\0\0\x02\0\0\0\0\0\0\0\x01\0\0\0\0\0\0\0\0",
        KeyFault::BadKey { index: 1 },
    ),
    (
        b"RHK1\0\0\0\0\0\0\0\x01\x3f\xff\xff\xff\xff\xff\xff\xff",
        KeyFault::BadKey { index: 0 },
    ),
    (
        b"RHK2\0\0\0\0\0\0\0\x01\x3f\xff\xff\xff\xff\xff\xff\xff",
        KeyFault::BadKey { index: 0 },
    ),
    (
        b"RHK1\0\0\0\0\0\0\0\x03\0\0\0\0\0\0\0\x0d\0\0\0\0\0\0\0\0\0\0\0\0\0\0\0\x05",
        KeyFault::BadKey { index: 1 },
    ),
];

#[test]
fn other_bytes_write_nothing(rt: HostRuntime) {
    for &(bytes, fault) in REFUSED {
        assert_eq!(rt;
            dump_of(rt.alloc(), bytes).err(),
            Some(Some(DumpFault::Keys(fault)))
        );
    }
    for digit in *b"12" {
        let mut bytes = THREE_KEYS;
        bytes[3] = digit;
        for n in 0..bytes.len() {
            let fault = dump_of(rt.alloc(), &bytes[..n]).err();
            assert_eq!(rt;
                fault,
                Some(Some(DumpFault::Keys(KeyFault::Short))),
                "at {n}"
            );
        }
    }
}

// What a change of one bit gives in each version, worked out by hand from the format, in runs of
// bits from the first byte's highest bit on: 32 times no key file, 44 times too many keys, 18 times
// a file that ends early, twice one that goes on, and 7 times a bad key, in the second version 6
// times. The two magics differ in two bits, so neither becomes the other. The count is 3: a change
// of one of its lowest two bits leaves keys over, one of the next 18 asks for more, up to 3 + 2^19,
// and 3 + 2^20 is above the limit. The two highest bits of a key put it out of range, the others do
// not, and the lowest bit of key 1 makes it 0, which the second version allows.
const CHANGED_BITS: [(usize, usize, [Option<KeyFault>; 2]); 11] = [
    (0, 32, [Some(KeyFault::NotKeys); 2]),
    (32, 76, [Some(KeyFault::TooMany); 2]),
    (76, 94, [Some(KeyFault::Short); 2]),
    (94, 96, [Some(KeyFault::Long); 2]),
    (96, 98, [Some(KeyFault::BadKey { index: 0 }); 2]),
    (98, 160, [None; 2]),
    (160, 162, [Some(KeyFault::BadKey { index: 1 }); 2]),
    (162, 223, [None; 2]),
    (223, 224, [Some(KeyFault::BadKey { index: 1 }), None]),
    (224, 226, [Some(KeyFault::BadKey { index: 2 }); 2]),
    (226, 288, [None; 2]),
];

#[test]
fn each_bit_is_changed(rt: HostRuntime) {
    for (from, to, faults) in CHANGED_BITS {
        for (fault, digit) in faults.iter().zip(b"12") {
            for bit in from..to {
                let mut bytes = THREE_KEYS;
                bytes[3] = *digit;
                if let Some(byte) = bytes.get_mut(bit / 8) {
                    *byte ^= 0x80 >> (bit % 8);
                }
                let expected = fault.map(|fault| Some(DumpFault::Keys(fault)));
                assert_eq!(rt; dump_of(rt.alloc(), &bytes).err(), expected, "bit {bit}");
            }
        }
    }
}

#[test]
fn each_read_fails(rt: HostRuntime) -> Result<(), Fail> {
    // The header has two, the part of the keys one, and the end one.
    for n in 1..5u64 {
        let mut reader = Counted::new(FaultyReader::new(THREE_KEYS.as_slice(), n));
        let fault = dump_by(rt.alloc(), &mut reader).err();
        let read = DumpFault::Keys(KeyFault::Read);
        assert_eq!(rt; (fault, reader.failures()), (Some(Some(read)), 1), "at {n}");
    }
    let mut reader = Counted::new(FaultyReader::new(THREE_KEYS.as_slice(), 5));
    let written = dump_by(rt.alloc(), &mut reader).map_err(|_| "refused")?;
    assert_eq!(rt; reader.failures(), 0);
    assert_eq!(rt; written.as_slice(), THREE_DUMP.as_bytes());
    Ok(())
}

#[test]
fn each_write_fails(rt: HostRuntime) {
    for refusal in [Refusal::Error, Refusal::TakesNothing] {
        // The head has five pieces, each line six, and the end one.
        for n in 1..26u64 {
            let mut writer = Counted::new(FaultyWriter::new(rt.alloc(), n, refusal));
            let mut reader = Counted::new(THREE_KEYS.as_slice());
            let outcome = dump_keys(rt.alloc(), &mut reader, &mut writer);
            let fault = (n < 25).then_some(DumpFault::Write);
            let failures = u64::from(n < 25);
            assert_eq!(rt;
                (outcome.err(), writer.failures()),
                (fault, failures),
                "at {n}"
            );
            let text = writer.get_ref().text();
            assert!(rt; THREE_DUMP.as_bytes().starts_with(text), "at {n}");
            assert_eq!(rt; text.len() == THREE_DUMP.len(), n == 25, "at {n}");
        }
    }
}

// A removal shifts back what stood behind the key, up to an empty cell or a key at home.
const REMOVALS: &[(&[u64], u64, &str)] = &[
    (
        &[8, 16, 5, 21],
        8,
        "table 3 3\n0 21 1\n1 5 1\n7 16 0\nend\n",
    ),
    (
        &[1, 9, 17, 6, 14, 3],
        9,
        "table 3 5\n0 3 2\n4 1 0\n5 17 1\n6 6 1\n7 14 2\nend\n",
    ),
];

#[test]
fn a_removal_is_dumped(rt: HostRuntime) -> Result<(), Fail> {
    for &(keys, removed, text) in REMOVALS {
        assert!(rt; keys.len() < 8 && keys.iter().all(|key| *key < 100) && removed < 100);
        let mut set = SeqSet::from_keys(rt.alloc(), 3, keys)?;
        assert!(rt; set.remove(removed));
        let cells = set.into_cells();
        assert!(rt; is_layout(3, &cells));
        let mut writer = Counted::new(Vec::new(rt.alloc()));
        write_dump(3, &cells, &mut writer)?;
        assert_eq!(rt;
            writer.into_inner().as_slice(),
            text.as_bytes(),
            "without {removed}"
        );
    }
    Ok(())
}

// At 4 bits 9 and 17 have home 8, and 1 has home 9.
#[test]
fn a_grown_table_is_dumped(rt: HostRuntime) -> Result<(), Fail> {
    let set = SeqSet::from_keys(rt.alloc(), 3, &[17, 1, 9])?;
    assert!(rt; set.bits() == 3 && set.len() < 8);
    let cells = grow(rt.alloc(), 3, set.cells(), 4)?;
    assert!(rt; is_layout(4, &cells));
    let mut writer = Counted::new(Vec::new(rt.alloc()));
    write_dump(4, &cells, &mut writer)?;
    let text = b"table 4 3\n8 9 0\n9 17 1\n10 1 1\nend\n";
    assert_eq!(rt; writer.into_inner().as_slice(), text.as_slice());
    Ok(())
}

#[test]
fn faults_of_a_dump_can_be_printed(rt: HostRuntime) -> Result<(), Fail> {
    for (fault, text) in [
        (DumpFault::Keys(KeyFault::Short), "key file ends early"),
        (DumpFault::TooLarge, "table too large"),
        (DumpFault::Memory, "out of memory"),
        (DumpFault::Write, "cannot write the output"),
    ] {
        assert_eq!(rt; format!(in rt.alloc(); "{fault}")?.as_str(), text);
    }
    Ok(())
}
