use rh_faulty::{FaultyReader, FaultyWriter, Refusal};
use rh_key_files::{Counted, WriteFault};
use rh_numbers::*;
use std::alloc::{AllocError, Global};
use std::test::*;

fn numbers_of(alloc: Global, text: &[u8]) -> Result<Vec<u64>, TextFault> {
    read_numbers(alloc, &mut Counted::new(text))
}

pub(crate) const ACCEPTED: &[(&[u8], &[u64])] = &[
    (b"", &[]),
    (b"\n", &[]),
    (b"17\n1\n9\n", &[17, 1, 9]),
    (b"9\n1\n9\n", &[9, 1, 9]),
    (b"17\n1", &[17, 1]),
    (b"  17 \n1  \n   9", &[17, 1, 9]),
    (b"\n\n17\n   \n1\n", &[17, 1]),
    (b"\t17\t\n \t1\t \n\t\n\t\r\n9\t\r\n\t", &[17, 1, 9]),
    (b"17\r\n\r\n  \r\n1 \r\n9\r", &[17, 1, 9]),
    (b"# spring\n17\n#1\n##\n#\r\n9\n#", &[17, 9]),
    (b"#\xff\0+-\n1\n", &[1]),
    (b"0\n00\n007\n", &[0, 0, 7]),
    (b"4611686018427387902\n", &[4611686018427387902]),
    (
        b"0000000000000000000000004611686018427387902",
        &[4611686018427387902],
    ),
    (b"1234567890", &[1234567890]),
    (b" ", &[]),
    (b"\r", &[]),
    (b"\xef\xbb\xbf17\n1\n9\n", &[17, 1, 9]),
    (b"\xef\xbb\xbf \t17\r\n", &[17]),
    (b"\xef\xbb\xbf# spring\n17", &[17]),
    (b"\xef\xbb\xbf\n17", &[17]),
    (b"\xef\xbb\xbf", &[]),
];

#[test]
fn texts_are_read(rt: HostRuntime) -> Result<(), Fail> {
    for &(text, keys) in ACCEPTED {
        assert_eq!(rt; numbers_of(rt.alloc(), text)?.as_slice(), keys, "{text:?}");
    }
    Ok(())
}

pub(crate) const NOT_A_KEY: &[(&[u8], u64)] = &[
    (b"+1\n", 1),
    (b"-1\n", 1),
    (b"1 2\n", 1),
    (b"1,2\n", 1),
    (b"1_0\n", 1),
    (b"0x10\n", 1),
    (b"1.0\n", 1),
    (b"1\t2\n", 1),
    (b"1 \t2\n", 1),
    (b"17\r\t\n", 1),
    (b"\t# spring\n", 1),
    (b"1\x0b\n", 1),
    (b"one", 1),
    (b"17\r1\n", 1),
    (b"17\r\r\n", 1),
    (b"17\r \n", 1),
    (b"\r17\n", 1),
    (b"17 # spring\n", 1),
    (b" # spring\n", 1),
    (b"17\n\n# 1\n1\n2\n\nx\n", 7),
    (b"17\n1x", 2),
    (b"99999999999999999999x\n", 1),
    (b"1\0\n", 1),
    (b"17\n\xef\xbb\xbf1\n", 2),
    (b"\n\xef\xbb\xbf", 2),
    (b" \xef\xbb\xbf17\n", 1),
    (b"\xef\xbb\xbf\xef\xbb\xbf17\n", 1),
    (b"\xef\xbb\xbfx\n", 1),
    (b"\xef", 1),
    (b"\xef\xbb", 1),
    (b"\xef\xbb\n", 1),
    (b"\xef\xbb17\n", 1),
    (b"\xef\xbf\xbb17\n", 1),
];

#[test]
fn what_is_no_number_is_refused_at_its_line(rt: HostRuntime) {
    for &(text, line) in NOT_A_KEY {
        assert_eq!(rt;
            numbers_of(rt.alloc(), text).err(),
            Some(TextFault::NotAKey { line }),
            "{text:?}"
        );
    }
}

pub(crate) const OUT_OF_RANGE: &[(&[u8], u64)] = &[
    (b"4611686018427387903\n", 1),
    (b"1\n\n18446744073709551615\n", 3),
    (b"18446744073709551616\r\n", 1),
    (b"1\n99999999999999999999999999999999999999999 \nx\n", 2),
    (b"46116860184273879020", 1),
    (b"18446744073709551617\n", 1),
];

#[test]
fn a_number_above_the_greatest_key_is_refused_at_its_line(rt: HostRuntime) {
    for &(text, line) in OUT_OF_RANGE {
        assert_eq!(rt;
            numbers_of(rt.alloc(), text).err(),
            Some(TextFault::OutOfRange { line }),
            "{text:?}"
        );
    }
}

// So many lines `7`, and this last line.
pub(crate) fn sevens(alloc: Global, lines: usize, last: &[u8]) -> Result<Vec<u8>, AllocError> {
    let mut text = Vec::new(alloc);
    for _ in 0..lines {
        text.extend_from_slice(b"7\n")?;
    }
    text.extend_from_slice(last)?;
    Ok(text)
}

#[test]
fn a_text_has_at_most_a_million_keys(rt: HostRuntime) -> Result<(), Fail> {
    let most = sevens(rt.alloc(), 1_000_000, b"\n# 7\n")?;
    assert_eq!(rt; numbers_of(rt.alloc(), &most)?.len(), 1_000_000);
    for (last, fault) in [
        (b"7".as_slice(), TextFault::TooMany),
        (b"7\nx", TextFault::TooMany),
        (b"\n8 8", TextFault::NotAKey { line: 1_000_002 }),
        (
            b"4611686018427387903",
            TextFault::OutOfRange { line: 1_000_001 },
        ),
    ] {
        let text = sevens(rt.alloc(), 1_000_000, last)?;
        assert_eq!(rt; numbers_of(rt.alloc(), &text).err(), Some(fault));
    }
    Ok(())
}

// The reading goes in parts of 8,192 bytes: a line across their seam is one line.
#[test]
fn a_line_may_be_of_any_length(rt: HostRuntime) -> Result<(), Fail> {
    for spaces in [8190usize, 8191, 8192, 8193, 20_000] {
        let mut text = vec![in rt.alloc(); b' '; spaces]?;
        text.extend_from_slice(b"12\r\n#")?;
        text.extend_from_slice(&vec![in rt.alloc(); b'x'; spaces]?)?;
        text.extend_from_slice(b"\n34")?;
        assert_eq!(rt;
            numbers_of(rt.alloc(), &text)?.as_slice(),
            [12, 34].as_slice()
        );
        text.push(b'x')?;
        assert_eq!(rt;
            numbers_of(rt.alloc(), &text).err(),
            Some(TextFault::NotAKey { line: 3 })
        );
    }
    Ok(())
}

#[test]
fn each_read_fails(rt: HostRuntime) -> Result<(), Fail> {
    let text = sevens(rt.alloc(), 8192, b"")?;
    // Two parts, and the end.
    for n in 1..4u64 {
        let mut reader = Counted::new(FaultyReader::new(text.as_slice(), n));
        let outcome = read_numbers(rt.alloc(), &mut reader);
        assert_eq!(rt; outcome.err(), Some(TextFault::Read), "at {n}");
        assert_eq!(rt; reader.failures(), 1);
    }
    let mut reader = Counted::new(FaultyReader::new(text.as_slice(), 4));
    assert_eq!(rt; read_numbers(rt.alloc(), &mut reader)?.len(), 8192);
    assert_eq!(rt; reader.failures(), 0);
    Ok(())
}

// The first read gives all of these bytes, and the second one fails.
const BEFORE_A_FAILED_READ: &[(&[u8], TextFault)] = &[
    (b"1\nx\n", TextFault::NotAKey { line: 2 }),
    (b"4611686018427387903\n1", TextFault::OutOfRange { line: 1 }),
    (b"1\nx", TextFault::NotAKey { line: 2 }),
    (b"1\n2", TextFault::Read),
    (b"1\n4611686018427387903", TextFault::Read),
    (b"1\n2\n", TextFault::Read),
    (b"\xef\xbb", TextFault::Read),
    (b"\xef\xbb\xbe", TextFault::NotAKey { line: 1 }),
];

#[test]
fn what_comes_before_a_failed_read_is_tested(rt: HostRuntime) {
    for &(text, fault) in BEFORE_A_FAILED_READ {
        let mut reader = Counted::new(FaultyReader::new(text, 2));
        assert_eq!(rt;
            read_numbers(rt.alloc(), &mut reader).err(),
            Some(fault),
            "{text:?}"
        );
        assert_eq!(rt; reader.failures(), 1);
    }
}

const WRITTEN: &[u64] = &[17, 0, 4611686018427387902, 17];

const WRITTEN_TEXT: &[u8] = b"17\n0\n4611686018427387902\n17\n";

#[test]
fn numbers_are_written(rt: HostRuntime) -> Result<(), Fail> {
    let mut writer = Counted::new(Vec::new(rt.alloc()));
    write_numbers(WRITTEN, &mut writer)?;
    assert_eq!(rt; writer.failures(), 0);
    let text = writer.into_inner();
    assert_eq!(rt; text.as_slice(), WRITTEN_TEXT);
    assert_eq!(rt; numbers_of(rt.alloc(), &text)?.as_slice(), WRITTEN);
    Ok(())
}

#[test]
fn each_write_fails(rt: HostRuntime) {
    for refusal in [Refusal::Error, Refusal::TakesNothing] {
        // Two writes for each number.
        for n in 1..10u64 {
            let mut writer = Counted::new(FaultyWriter::new(rt.alloc(), n, refusal));
            let outcome = write_numbers(WRITTEN, &mut writer);
            let fault = if n < 9 { Some(WriteFault::Write) } else { None };
            assert_eq!(rt; outcome.err(), fault, "at {n}");
            assert_eq!(rt; writer.failures(), u64::from(n < 9));
            let text = writer.get_ref().text();
            assert!(rt; WRITTEN_TEXT.starts_with(text), "at {n}");
            assert_eq!(rt; text.len() == WRITTEN_TEXT.len(), n == 9, "at {n}");
        }
    }
}

#[test]
fn a_fault_can_be_printed(rt: HostRuntime) -> Result<(), Fail> {
    for (fault, text) in [
        (
            TextFault::NotAKey { line: 7 },
            "line 7: not a number from 0 to 4611686018427387902",
        ),
        (
            TextFault::OutOfRange { line: 9 },
            "line 9: number above 4611686018427387902",
        ),
        (TextFault::TooMany, "more than 1000000 keys"),
        (TextFault::TooLong, "text too long"),
        (TextFault::Read, "read failed"),
        (TextFault::Memory, "out of memory"),
    ] {
        assert_eq!(rt; format!(in rt.alloc(); "{fault}")?.as_str(), text);
    }
    Ok(())
}
