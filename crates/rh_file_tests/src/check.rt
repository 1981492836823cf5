use rh_commands::*;
use rh_faulty::{FaultyReader, FaultyWriter, Refusal};
use rh_key_files::Counted;
use rh_snapshot::SnapFault;
use std::alloc::{AllocError, Global};
use std::io::Read;
use std::process::Abort;
use std::test::*;

// The keys 1, 9 and 17 at 3 bits, in either version.
const SECOND: [u8; 109] = *b"RHS2\x03\0\0\0\0\0\0\0\x03\
    \0\0\0\0\0\0\0\0\0\0\0\0\0\0\0\0\0\0\0\0\0\0\0\0\0\0\0\0\0\0\0\0\
    \0\0\0\0\0\0\0\x02\0\0\0\0\0\0\0\x0a\0\0\0\0\0\0\0\x12\0\0\0\0\0\0\0\0\
    \x93\x3c\x80\x31\x4c\xee\xf5\xb1\xcc\xcf\x87\x7c\x8e\xbb\x0d\x07\
    \xad\xd0\x88\xd5\x34\xe5\xac\x93\x6e\x13\xd5\xb7\xe7\x0d\x3b\xec";

const FIRST: [u8; 109] = *b"RHS1\x03\0\0\0\0\0\0\0\x03\
    \0\0\0\0\0\0\0\0\0\0\0\0\0\0\0\0\0\0\0\0\0\0\0\0\0\0\0\0\0\0\0\0\
    \0\0\0\0\0\0\0\x01\0\0\0\0\0\0\0\x09\0\0\0\0\0\0\0\x11\0\0\0\0\0\0\0\0\
    \xa3\x70\xef\x48\x7b\x1f\x29\xbe\xd7\x2d\x7c\xce\xbe\x19\x71\x73\
    \x66\xe4\x1a\x11\xc5\x63\x2a\x5b\x27\x72\x04\xde\x96\xc7\xed\x09";

const SECOND_LINE: &str = "bits 3 held 3 seal \
    933c80314ceef5b1cccf877c8ebb0d07add088d534e5ac936e13d5b7e70d3bec\n";

const FIRST_LINE: &str = "bits 3 held 3 seal \
    a370ef487b1f29bed72d7ccebe19717366e41a11c5632a5b277204de96c7ed09\n";

// The line of what is read, or its fault where nothing was written.
fn line_by(alloc: Global, reader: &mut Counted<impl Read>) -> Result<Vec<u8>, Option<CheckFault>> {
    let mut writer = Counted::new(Vec::new(alloc));
    let outcome = check_snapshot(alloc, reader, &mut writer);
    let written = writer.into_inner();
    match outcome {
        Ok(()) => Ok(written),
        Err(fault) if written.is_empty() => Err(Some(fault)),
        Err(_) => Err(None),
    }
}

fn line_of(alloc: Global, bytes: &[u8]) -> Result<Vec<u8>, Option<CheckFault>> {
    line_by(alloc, &mut Counted::new(bytes))
}

#[test]
fn a_snapshot_becomes_a_line(rt: HostRuntime) -> Result<(), Fail> {
    for (bytes, line) in [(&SECOND, SECOND_LINE), (&FIRST, FIRST_LINE)] {
        let written = line_of(rt.alloc(), bytes).map_err(|_| "refused")?;
        assert_eq!(rt; written.as_slice(), line.as_bytes());
    }
    Ok(())
}

// The homes of the keys 1 to 12 at 10 bits, no two of which are the same.
const HOMES: [usize; 12] = [632, 241, 874, 483, 92, 725, 334, 966, 575, 184, 817, 426];

const TWELVE_SEAL: [u8; 32] = *b"\
    \x96\x3f\xdf\xd7\x6a\xe1\x93\x21\x70\x57\xb2\xc6\xc5\x85\x73\x0f\
    \x83\x55\x16\xfa\x7a\x30\x71\xf0\x82\x95\xcd\x60\x1e\x4d\x70\x5b";

const TWELVE_LINE: &str = "bits 10 held 12 seal \
    963fdfd76ae193217057b2c6c585730f835516fa7a3071f08295cd601e4d705b\n";

// The snapshot of the keys 1 to 12 at 10 bits.
fn twelve_keys(alloc: Global) -> Result<Vec<u8>, AllocError> {
    let mut cells = [0u64; 1024];
    // A cell holds the key plus 1.
    for (value, home) in (2..14).zip(HOMES) {
        if let Some(cell) = cells.get_mut(home) {
            *cell = value;
        }
    }
    let mut bytes = b"RHS2\x0a\0\0\0\0\0\0\0\x0c".as_slice().to_vec(alloc)?;
    for cell in cells {
        bytes.extend_from_slice(&cell.to_be_bytes())?;
    }
    bytes.extend_from_slice(&TWELVE_SEAL)?;
    Ok(bytes)
}

#[test]
fn numbers_have_all_their_digits(rt: HostRuntime) -> Result<(), Fail> {
    let bytes = twelve_keys(rt.alloc())?;
    let written = line_of(rt.alloc(), &bytes).map_err(|_| "refused")?;
    assert_eq!(rt; written.as_slice(), TWELVE_LINE.as_bytes());
    Ok(())
}

// The keys 8, 16, 5 and 21 at 3 bits, their first two cells exchanged, and sealed so.
const EXCHANGED: [u8; 109] = *b"RHS2\x03\0\0\0\0\0\0\0\x04\
    \0\0\0\0\0\0\0\x16\0\0\0\0\0\0\0\x11\0\0\0\0\0\0\0\x06\0\0\0\0\0\0\0\0\
    \0\0\0\0\0\0\0\0\0\0\0\0\0\0\0\0\0\0\0\0\0\0\0\0\0\0\0\0\0\0\0\x09\
    \x30\x1c\x24\x3c\x91\x3c\xed\x9e\x59\xbf\xcd\x7c\x25\x39\x99\x87\
    \x4c\x1f\x90\xa3\x54\x06\x8c\x7d\x35\x42\x8a\xc4\x97\x37\x5d\x25";

const REFUSED: &[(&[u8], SnapFault)] = &[
    (b"RHS", SnapFault::Short),
    (b"RHK2\0\0\0\0\0\0\0\0", SnapFault::NotSnapshot),
    (b"RHS1\x02", SnapFault::BadBits),
    (b"RHS1\x11", SnapFault::BadBits),
    (b"RHS2\x13", SnapFault::BadBits),
    (b"RHS2\x03\0\0\0\0\0\0\0\x03", SnapFault::Short),
    (&EXCHANGED, SnapFault::NotALayout),
];

// The bytes are refused by this fault, and nothing is written.
fn assert_refused(rt: &(impl Abort + AllocGlobal), bytes: &[u8], fault: SnapFault) {
    let found = line_of(rt.alloc(), bytes).err();
    assert_eq!(rt; found, Some(Some(CheckFault::Snap(fault))), "{bytes:?}");
}

#[test]
fn other_bytes_write_nothing(rt: HostRuntime) -> Result<(), Fail> {
    for &(bytes, fault) in REFUSED {
        assert_refused(&rt, bytes, fault);
    }
    for whole in [SECOND, FIRST] {
        assert_refused(&rt, &whole[..108], SnapFault::Short);
        let mut longer = whole.to_vec(rt.alloc())?;
        longer.push(0)?;
        assert_refused(&rt, &longer, SnapFault::Long);
        // A bit of a cell, and one of the seal.
        for place in [52, 108usize] {
            let mut bytes = whole;
            if let Some(byte) = bytes.get_mut(place) {
                *byte ^= 1;
            }
            assert_refused(&rt, &bytes, SnapFault::Damaged);
        }
    }
    Ok(())
}

#[test]
fn each_read_fails(rt: HostRuntime) -> Result<(), Fail> {
    // The magic, the bits, the count, each cell, the seal and the end.
    for n in 1..14u64 {
        let mut reader = Counted::new(FaultyReader::new(SECOND.as_slice(), n));
        let fault = line_by(rt.alloc(), &mut reader).err();
        let read = CheckFault::Snap(SnapFault::Read);
        assert_eq!(rt; (fault, reader.failures()), (Some(Some(read)), 1), "at {n}");
    }
    let mut reader = Counted::new(FaultyReader::new(SECOND.as_slice(), 14));
    let written = line_by(rt.alloc(), &mut reader).map_err(|_| "refused")?;
    assert_eq!(rt; reader.failures(), 0);
    assert_eq!(rt; written.as_slice(), SECOND_LINE.as_bytes());
    Ok(())
}

#[test]
fn each_write_fails(rt: HostRuntime) {
    for refusal in [Refusal::Error, Refusal::TakesNothing] {
        // The line has seven pieces.
        for n in 1..9u64 {
            let mut reader = Counted::new(SECOND.as_slice());
            let mut writer = Counted::new(FaultyWriter::new(rt.alloc(), n, refusal));
            let outcome = check_snapshot(rt.alloc(), &mut reader, &mut writer);
            let fault = if n < 8 { Some(CheckFault::Write) } else { None };
            assert_eq!(rt; outcome.err(), fault, "at {n}");
            assert_eq!(rt; writer.failures(), u64::from(n < 8));
            let text = writer.get_ref().text();
            assert!(rt; SECOND_LINE.as_bytes().starts_with(text), "at {n}");
            assert_eq!(rt; text.len() == SECOND_LINE.len(), n == 8, "at {n}");
        }
    }
}

#[test]
fn a_refused_snapshot_is_told_before_a_failed_write(rt: HostRuntime) {
    let mut writer = Counted::new(FaultyWriter::new(rt.alloc(), 1, Refusal::Error));
    let mut reader = Counted::new(EXCHANGED.as_slice());
    let outcome = check_snapshot(rt.alloc(), &mut reader, &mut writer);
    assert_eq!(rt; outcome, Err(CheckFault::Snap(SnapFault::NotALayout)));
    assert_eq!(rt; writer.failures(), 0);
}

#[test]
fn a_fault_can_be_printed(rt: HostRuntime) -> Result<(), Fail> {
    for (fault, text) in [
        (CheckFault::Snap(SnapFault::NotSnapshot), "not a snapshot"),
        (CheckFault::Snap(SnapFault::Short), "snapshot ends early"),
        (CheckFault::Snap(SnapFault::BadBits), "bits out of range"),
        (CheckFault::Snap(SnapFault::Damaged), "seal does not match"),
        (
            CheckFault::Snap(SnapFault::NotALayout),
            "cells are not a layout",
        ),
        (
            CheckFault::Snap(SnapFault::Long),
            "snapshot goes on after its seal",
        ),
        (CheckFault::Snap(SnapFault::Read), "read failed"),
        (CheckFault::Snap(SnapFault::Memory), "out of memory"),
        (CheckFault::Write, "cannot write the output"),
    ] {
        assert_eq!(rt; format!(in rt.alloc(); "{fault}")?.as_str(), text);
    }
    Ok(())
}
