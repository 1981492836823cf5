use rh_faulty::{FaultyReader, FaultyWriter, Refusal};
use rh_key_files::{Counted, KeyFault};
use rh_numbers::TextFault;
use rh_parts::MAX_PARTS;
use rh_splitting::*;
use std::alloc::Global;
use std::io::Read;
use std::process::Abort;
use std::test::*;

// Keys of three of four parts; part 1 has none.
const TEXT: &[u8] =
    b"# keys\n5\n1152921504606846976\n0\n2305843009213693952\n4611686018427387902\n5";

// What each part is given, and how many keys these are.
const PARTS: [(&[u8], u64); 4] = [
    (b"\0\0\0\0\0\0\0\0\x20\0\0\0\0\0\0\0", 2),
    (b"", 0),
    (b"\x10\0\0\0\0\0\0\0", 1),
    (
        b"\0\0\0\0\0\0\0\x05\x3f\xff\xff\xff\xff\xff\xff\xfe\0\0\0\0\0\0\0\x05",
        3,
    ),
];

// Parts that take so many keys each.
fn in_memory(alloc: Global, limit: u64) -> [Part<Vec<u8>>; 4] {
    [
        Part::new(Vec::new(alloc), limit),
        Part::new(Vec::new(alloc), limit),
        Part::new(Vec::new(alloc), limit),
        Part::new(Vec::new(alloc), limit),
    ]
}

fn assert_given(rt: &impl Abort, parts: [Part<Vec<u8>>; 4]) {
    let [first, second, third, fourth] = parts;
    assert_got(rt, first, PARTS[0]);
    assert_got(rt, second, PARTS[1]);
    assert_got(rt, third, PARTS[2]);
    assert_got(rt, fourth, PARTS[3]);
}

// The part was given these bytes, and so many keys.
fn assert_got(rt: &impl Abort, part: Part<Vec<u8>>, got: (&[u8], u64)) {
    assert_eq!(rt; part.count(), got.1);
    assert_eq!(rt; part.into_writer().into_inner().as_slice(), got.0);
}

#[test]
fn each_key_goes_to_its_part(rt: HostRuntime) {
    let mut parts = in_memory(rt.alloc(), 3);
    let outcome = split_text(rt.alloc(), &mut Counted::new(TEXT), &mut parts);
    assert_eq!(rt; outcome, Ok(()));
    let mut plan = Counted::new(Vec::new(rt.alloc()));
    assert!(rt; write_plan(&parts, &mut plan).is_ok());
    assert_eq!(rt;
        plan.into_inner().as_slice(),
        b"000 2\n001 0\n002 1\n003 3\nkeys 6 parts 1\n".as_slice()
    );
    assert_given(&rt, parts);
}

#[test]
fn a_part_that_is_full_takes_no_key(rt: HostRuntime) {
    let mut parts = in_memory(rt.alloc(), 2);
    let outcome = split_text(rt.alloc(), &mut Counted::new(TEXT), &mut parts);
    assert_eq!(rt; outcome, Err(SplitFault::TooMany { part: 3 }));
    assert_eq!(rt; parts[0].count(), 2);
    assert_eq!(rt; parts[3].count(), 2);
}

#[test]
fn parts_are_planned(rt: HostRuntime) -> Result<(), Fail> {
    let mut parts = counting_parts(rt.alloc(), 4)?;
    let outcome = split_text(rt.alloc(), &mut Counted::new(TEXT), &mut parts);
    assert_eq!(rt; outcome, Ok(()));
    for (part, got) in parts.iter().zip(&PARTS) {
        assert_eq!(rt; part.count(), got.1);
    }
    for (keys, parts) in [(0, 1), (150_000, 1), (150_001, 2), (150_000_001, 1_001)] {
        assert_eq!(rt; parts_for(keys), parts);
    }
    for (bytes, of_text, of_keys) in [
        (0, 1, 1),
        (1_050_006, 1, 1),
        (1_050_007, 2, 1),
        (1_200_007, 2, 1),
        (1_200_008, 2, 2),
        (u64::MAX, 1_000, 1_000),
    ] {
        assert_eq!(rt; parts_chosen(Source::Text, bytes), of_text);
        assert_eq!(rt; parts_chosen(Source::Keys, bytes), of_keys);
    }
    Ok(())
}

#[test]
fn what_cannot_be_read_is_told(rt: HostRuntime) {
    let mut reader = Counted::new(FaultyReader::new(TEXT, 1));
    let told = try_source(&mut reader, Source::Keys);
    assert_eq!(rt; told, Err(SplitFault::Keys(KeyFault::Read)));
    let told = try_source(&mut reader, Source::Text);
    assert_eq!(rt; told, Ok(()));
}

#[test]
fn a_key_file_is_split_too(rt: HostRuntime) -> Result<(), Fail> {
    let mut file = Vec::new(rt.alloc());
    file.extend_from_slice(b"RHK2\0\0\0\0\0\0\0\x06")?;
    for part in &PARTS {
        file.extend_from_slice(part.0)?;
    }
    let mut parts = in_memory(rt.alloc(), 3);
    let mut reader = Counted::new(file.as_slice());
    let outcome = split_source(rt.alloc(), &mut reader, Source::Keys, &mut parts);
    assert_eq!(rt; outcome, Ok(()));
    assert_given(&rt, parts);
    let mut parts = in_memory(rt.alloc(), 3);
    let outcome = split_file(rt.alloc(), &mut Counted::new(TEXT), &mut parts);
    assert_eq!(rt; outcome, Err(SplitFault::Keys(KeyFault::NotKeys)));
    for part in &parts {
        assert_eq!(rt; part.count(), 0);
    }
    Ok(())
}

fn fault_of(alloc: Global, reader: &mut Counted<impl Read>) -> Option<SplitFault> {
    let mut parts = in_memory(alloc, 3);
    split_source(alloc, reader, Source::Text, &mut parts).err()
}

#[test]
fn the_first_fault_is_told(rt: HostRuntime) {
    for (text, fault) in [
        (b"1\n2x\n".as_slice(), TextFault::NotAKey { line: 2 }),
        (b"4611686018427387903", TextFault::OutOfRange { line: 1 }),
    ] {
        let told = fault_of(rt.alloc(), &mut Counted::new(text));
        assert_eq!(rt; told, Some(SplitFault::Text(fault)));
    }
}

// The text and its end.
#[test]
fn each_read_fails(rt: HostRuntime) {
    for n in 1..4u64 {
        let mut reader = Counted::new(FaultyReader::new(TEXT, n));
        let told = fault_of(rt.alloc(), &mut reader);
        assert_eq!(rt; told, (n < 3).then_some(SplitFault::Text(TextFault::Read)));
        assert_eq!(rt; reader.failures(), u64::from(n < 3));
    }
}

// The keys before a failed read are given to their parts, and a bad line before it is told.
#[test]
fn whole_lines_before_a_failed_read_are_split(rt: HostRuntime) {
    for (text, fault) in [
        (b"5\n0\n7".as_slice(), TextFault::Read),
        (b"5\n0\nx\n7", TextFault::NotAKey { line: 3 }),
    ] {
        let mut parts = in_memory(rt.alloc(), 3);
        let mut reader = Counted::new(FaultyReader::new(text, 2));
        let outcome = split_text(rt.alloc(), &mut reader, &mut parts);
        assert_eq!(rt; outcome, Err(SplitFault::Text(fault)));
        assert_eq!(rt; reader.failures(), 1);
        for (part, count) in parts.iter().zip([1, 0, 0, 1]) {
            assert_eq!(rt; part.count(), count);
        }
    }
}

// The last part writes three keys.
#[test]
fn each_write_fails(rt: HostRuntime) {
    for refusal in [Refusal::Error, Refusal::TakesNothing] {
        for n in 1..5u64 {
            let mut parts = [
                Part::new(FaultyWriter::new(rt.alloc(), 0, refusal), 3),
                Part::new(FaultyWriter::new(rt.alloc(), 0, refusal), 3),
                Part::new(FaultyWriter::new(rt.alloc(), 0, refusal), 3),
                Part::new(FaultyWriter::new(rt.alloc(), n, refusal), 3),
            ];
            let outcome = split_text(rt.alloc(), &mut Counted::new(TEXT), &mut parts);
            assert_eq!(rt;
                outcome.err(),
                (n < 4).then_some(SplitFault::Write { part: 3 })
            );
            // The first key is one of the last part, and those of the others come between that and
            // its second.
            let [first, second, third, last] = parts;
            for (part, got) in [
                (first, PARTS[0].0),
                (second, PARTS[1].0),
                (third, PARTS[2].0),
            ] {
                let writer = part.into_writer().into_inner();
                assert_eq!(rt; writer.text(), if n > 1 { got } else { b"".as_slice() });
            }
            assert_eq!(rt; last.count(), n - 1);
            let writer = last.into_writer().into_inner();
            assert!(rt; PARTS[3].0.starts_with(writer.text()));
            assert_eq!(rt; writer.text().len() as u64, 8 * (n - 1));
        }
    }
}

#[test]
fn the_numbers(rt: HostRuntime) {
    assert_eq!(rt; MAX_PARTS, 1_000);
    assert_eq!(rt; MAX_NAME_BYTES, 200);
}

#[test]
fn names_are_told_apart(rt: HostRuntime) {
    for name in ["spring", "a.b-c_1", "!~"] {
        assert!(rt; is_name(name), "{name}");
    }
    for name in ["", "a/b", "a b", "a\tb", "\x7f", "\u{e9}t\u{e9}"] {
        assert!(rt; !is_name(name), "{name}");
    }
}

#[test]
fn a_fault_can_be_printed(rt: HostRuntime) -> Result<(), Fail> {
    for (fault, text) in [
        (
            SplitFault::TooMany { part: 7 },
            "part 007: more than 1000000 keys; --plan tells how many parts would do",
        ),
        (
            SplitFault::Write { part: 999 },
            "part 999: cannot write the key file",
        ),
        (
            SplitFault::Text(TextFault::NotAKey { line: 7 }),
            "line 7: not a number from 0 to 4611686018427387902",
        ),
    ] {
        let told = format!(in rt.alloc(); "{fault}")?;
        assert_eq!(rt; told.as_str(), text);
        let told = format!(in rt.alloc(); "{}", FilesFault::Split(fault))?;
        assert_eq!(rt; told.as_str(), text);
    }
    for (fault, text) in [
        (
            FilesFault::Create { part: 0 },
            "part 000: cannot make the key file",
        ),
        (
            FilesFault::TooManyOpen { part: 96 },
            "part 096: too many open files, see ulimit -n",
        ),
        (
            FilesFault::Left { part: 3 },
            "part 003: too many files of runs that were cut: remove 003/NAME.keys.rhset-part-*",
        ),
        (
            FilesFault::Write { part: 12 },
            "part 012: cannot write the key file",
        ),
        (FilesFault::Memory, "out of memory"),
    ] {
        let told = format!(in rt.alloc(); "{fault}")?;
        assert_eq!(rt; told.as_str(), text);
    }
    Ok(())
}
