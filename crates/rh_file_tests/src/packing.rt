use rh_faulty::{FaultyReader, FaultyWriter, Refusal};
use rh_key_files::{Counted, KeyFault};
use rh_key_texts::*;
use rh_numbers::TextFault;
use rh_snapshot::SnapFault;
use std::alloc::Global;
use std::fmt::Debug;
use std::io::Read;
use std::process::Abort;
use std::test::*;

const TEXT: &[u8] = b"17\n1\n9\n";

// The keys 17, 1 and 9.
const FILE: &[u8] = b"RHK2\0\0\0\0\0\0\0\x03\0\0\0\0\0\0\0\x11\0\0\0\0\0\0\0\x01\0\0\0\0\0\0\0\x09";

// The same keys at 3 bits.
const SNAPSHOT: &[u8] = b"RHS2\x03\0\0\0\0\0\0\0\x03\
    \0\0\0\0\0\0\0\0\0\0\0\0\0\0\0\0\0\0\0\0\0\0\0\0\0\0\0\0\0\0\0\0\
    \0\0\0\0\0\0\0\x02\0\0\0\0\0\0\0\x0a\0\0\0\0\0\0\0\x12\0\0\0\0\0\0\0\0\
    \x93\x3c\x80\x31\x4c\xee\xf5\xb1\xcc\xcf\x87\x7c\x8e\xbb\x0d\x07\
    \xad\xd0\x88\xd5\x34\xe5\xac\x93\x6e\x13\xd5\xb7\xe7\x0d\x3b\xec";

const RISING: &[u8] = b"1\n9\n17\n";

// What a command writes, and how it ends.
type Told<E> = (Vec<u8>, Result<(), E>);

fn packed(alloc: Global, reader: &mut Counted<impl Read>) -> Told<PackFault> {
    let mut writer = Counted::new(Vec::new(alloc));
    let outcome = pack(alloc, reader, &mut writer);
    (writer.into_inner(), outcome)
}

fn listed(alloc: Global, reader: &mut Counted<impl Read>) -> Told<ListFault> {
    let mut writer = Counted::new(Vec::new(alloc));
    let outcome = list_keys(alloc, reader, &mut writer);
    (writer.into_inner(), outcome)
}

fn listed_held(alloc: Global, reader: &mut Counted<impl Read>) -> Told<HeldFault> {
    let mut writer = Counted::new(Vec::new(alloc));
    let outcome = list_snapshot(alloc, reader, &mut writer);
    (writer.into_inner(), outcome)
}

// The command wrote these bytes, or nothing where it ends by this fault.
fn assert_told<E: PartialEq + Debug + Copy>(
    rt: &impl Abort,
    told: &Told<E>,
    bytes: &[u8],
    fault: Option<E>,
) {
    let bytes = if fault.is_some() { b"" } else { bytes };
    assert_eq!(rt; told.0.as_slice(), bytes);
    assert_eq!(rt; told.1.err(), fault);
}

#[test]
fn there_and_back(rt: HostRuntime) {
    let alloc = rt.alloc();
    let text = b"# keys\n 17\r\n\n1 \n009".as_slice();
    let file = packed(alloc, &mut Counted::new(text));
    assert_told(&rt, &file, FILE, None);
    let text = listed(alloc, &mut Counted::new(file.0.as_slice()));
    assert_told(&rt, &text, TEXT, None);
    let again = packed(alloc, &mut Counted::new(text.0.as_slice()));
    assert_told(&rt, &again, FILE, None);
    let held = listed_held(alloc, &mut Counted::new(SNAPSHOT));
    assert_told(&rt, &held, RISING, None);
}

#[test]
fn refused_bytes_write_nothing(rt: HostRuntime) {
    for (text, fault) in [
        (b"1\n2x\n".as_slice(), TextFault::NotAKey { line: 2 }),
        (b"4611686018427387903", TextFault::OutOfRange { line: 1 }),
    ] {
        let told = packed(rt.alloc(), &mut Counted::new(text));
        assert_told(&rt, &told, b"", Some(PackFault::Text(fault)));
    }
    for (file, fault) in [
        (SNAPSHOT, KeyFault::NotKeys),
        (&FILE[..35], KeyFault::Short),
    ] {
        let told = listed(rt.alloc(), &mut Counted::new(file));
        assert_told(&rt, &told, b"", Some(ListFault::Keys(fault)));
    }
    for (snapshot, fault) in [
        (FILE, SnapFault::NotSnapshot),
        (&SNAPSHOT[..108], SnapFault::Short),
    ] {
        let told = listed_held(rt.alloc(), &mut Counted::new(snapshot));
        assert_told(&rt, &told, b"", Some(HeldFault::Snap(fault)));
    }
}

// The text and its end.
#[test]
fn each_read_of_a_text_fails(rt: HostRuntime) {
    for n in 1..4u64 {
        let mut reader = Counted::new(FaultyReader::new(TEXT, n));
        let told = packed(rt.alloc(), &mut reader);
        let fault = (n < 3).then_some(PackFault::Text(TextFault::Read));
        assert_told(&rt, &told, FILE, fault);
        assert_eq!(rt; reader.failures(), u64::from(n < 3));
    }
}

// The magic, the count, the part of the keys and the end.
#[test]
fn each_read_of_a_key_file_fails(rt: HostRuntime) {
    for n in 1..6u64 {
        let mut reader = Counted::new(FaultyReader::new(FILE, n));
        let told = listed(rt.alloc(), &mut reader);
        let fault = (n < 5).then_some(ListFault::Keys(KeyFault::Read));
        assert_told(&rt, &told, TEXT, fault);
        assert_eq!(rt; reader.failures(), u64::from(n < 5));
    }
}

// The magic, the bits, the count, each cell, the seal and the end.
#[test]
fn each_read_of_a_snapshot_fails(rt: HostRuntime) {
    for n in 1..15u64 {
        let mut reader = Counted::new(FaultyReader::new(SNAPSHOT, n));
        let told = listed_held(rt.alloc(), &mut reader);
        let fault = (n < 14).then_some(HeldFault::Snap(SnapFault::Read));
        assert_told(&rt, &told, RISING, fault);
        assert_eq!(rt; reader.failures(), u64::from(n < 14));
    }
}

// The command ended by this fault, and wrote a part of these bytes before.
fn assert_cut<E: PartialEq + Debug + Copy>(
    rt: &impl Abort,
    writer: &Counted<FaultyWriter>,
    bytes: &[u8],
    outcome: Result<(), E>,
    fault: Option<E>,
) {
    assert_eq!(rt; outcome.err(), fault);
    assert!(rt; bytes.starts_with(writer.get_ref().text()));
}

// The magic, the count and three keys.
#[test]
fn each_write_of_a_key_file_fails(rt: HostRuntime) {
    for refusal in [Refusal::Error, Refusal::TakesNothing] {
        for n in 1..7u64 {
            let mut writer = Counted::new(FaultyWriter::new(rt.alloc(), n, refusal));
            let outcome = pack(rt.alloc(), &mut Counted::new(TEXT), &mut writer);
            let fault = (n < 6).then_some(PackFault::Write);
            assert_cut(&rt, &writer, FILE, outcome, fault);
        }
    }
}

// Two for each number.
#[test]
fn each_write_of_numbers_fails(rt: HostRuntime) {
    for refusal in [Refusal::Error, Refusal::TakesNothing] {
        for n in 1..8u64 {
            let mut writer = Counted::new(FaultyWriter::new(rt.alloc(), n, refusal));
            let outcome = list_keys(rt.alloc(), &mut Counted::new(FILE), &mut writer);
            let fault = (n < 7).then_some(ListFault::Write);
            assert_cut(&rt, &writer, TEXT, outcome, fault);
            let mut writer = Counted::new(FaultyWriter::new(rt.alloc(), n, refusal));
            let outcome = list_snapshot(rt.alloc(), &mut Counted::new(SNAPSHOT), &mut writer);
            let fault = (n < 7).then_some(HeldFault::Write);
            assert_cut(&rt, &writer, RISING, outcome, fault);
        }
    }
}

#[test]
fn a_fault_can_be_printed(rt: HostRuntime) -> Result<(), Fail> {
    let text = format!(in rt.alloc(); "{}", PackFault::Text(TextFault::NotAKey { line: 7 }))?;
    assert_eq!(rt;
        text.as_str(),
        "line 7: not a number from 0 to 4611686018427387902"
    );
    let keys = format!(in rt.alloc(); "{}", ListFault::Keys(KeyFault::NotKeys))?;
    assert_eq!(rt; keys.as_str(), "not a key file");
    let held = format!(in rt.alloc(); "{}", HeldFault::Snap(SnapFault::Damaged))?;
    assert_eq!(rt; held.as_str(), "seal does not match");
    for write in [
        format!(in rt.alloc(); "{}", PackFault::Write)?,
        format!(in rt.alloc(); "{}", ListFault::Write)?,
        format!(in rt.alloc(); "{}", HeldFault::Write)?,
    ] {
        assert_eq!(rt; write.as_str(), "cannot write the output");
    }
    Ok(())
}
