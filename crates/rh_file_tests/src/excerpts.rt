use crate::numbers::sevens;
use rh_bytes::Counted;
use rh_faulty::FaultyReader;
use rh_numbers::*;
use std::io;
use std::test::*;

// The bytes of a text, a line of it by its number, and how that line is shown.
const SHOWN: &[(&[u8], u64, &str)] = &[
    (b"customer_id\n5\n", 1, "\"customer_id\""),
    (b"5\n7,Anna\r\n8", 2, "\"7,Anna\""),
    (b"5\n7\r\r\n8", 2, "\"7\\x0D\""),
    (b"5\n8 ", 2, "\"8 \""),
    (b"5\n\n7", 2, "\"\""),
    (b"5\n", 2, "\"\""),
    (b"", 1, "\"\""),
    (b"\r\n", 1, "\"\""),
    (b"say \"5\"\\", 1, "\"say \\\"5\\\"\\\\\""),
    (
        b"\0\t\x1f ~\x7f\xff\n",
        1,
        "\"\\x00\\x09\\x1F ~\\x7F\\xFF\"",
    ),
    (b"\xef\xbb\xbfid\n", 1, "\"id\""),
    (
        b"\xef\xbb\xbfid\n\xef\xbb\xbf5\n",
        2,
        "\"\\xEF\\xBB\\xBF5\"",
    ),
    (b"\xef\xbb\xbf\xef\xbb\xbf5\n", 1, "\"\\xEF\\xBB\\xBF5\""),
    (b"\xef\xbb", 1, "\"\\xEF\\xBB\""),
    (
        b"0123456789012345678901234567890123456789",
        1,
        "\"0123456789012345678901234567890123456789\"",
    ),
    (
        b"0123456789012345678901234567890123456789\r\n5",
        1,
        "\"0123456789012345678901234567890123456789\"",
    ),
    (
        b"0123456789012345678901234567890123456789\r\r\n5",
        1,
        "\"0123456789012345678901234567890123456789\"..",
    ),
    (
        b"01234567890123456789012345678901234567890\n5",
        1,
        "\"0123456789012345678901234567890123456789\"..",
    ),
];

#[test]
fn a_line_is_shown(rt: HostRuntime) -> Result<(), Fail> {
    for &(text, number, shown) in SHOWN {
        let Some(line) = line_at(&mut Counted::new(text), number) else {
            panic!(rt; "no line {number} of {text:?}");
        };
        let told = format!(in rt.alloc(); "{line}")?;
        assert_eq!(rt; told.as_str(), shown, "{text:?}");
    }
    Ok(())
}

#[test]
fn a_line_that_is_not_there_is_not_shown(rt: HostRuntime) {
    for (text, number) in [(b"5".as_slice(), 2), (b"5\n", 3), (b"", 2)] {
        assert!(rt;
            line_at(&mut Counted::new(text), number).is_none(),
            "{text:?}"
        );
    }
}

// The reading goes in parts of 8,192 bytes.
#[test]
fn a_line_may_stand_in_any_part(rt: HostRuntime) -> Result<(), Fail> {
    for lines in [4090usize, 4093, 4094, 4095, 4096, 4097, 20_000] {
        let text = sevens(rt.alloc(), lines, b"\xef\xbb\xbfseven\r\n8")?;
        let number = (lines as u64).saturating_add(1);
        let Some(line) = line_at(&mut Counted::new(text.as_slice()), number) else {
            panic!(rt; "no line {number}");
        };
        let told = format!(in rt.alloc(); "{line}")?;
        assert_eq!(rt; told.as_str(), "\"\\xEF\\xBB\\xBFseven\"", "{lines}");
    }
    Ok(())
}

#[test]
fn each_read_of_a_line_fails(rt: HostRuntime) -> Result<(), Fail> {
    let text = sevens(rt.alloc(), 8192, b"x")?;
    // Two parts, what comes behind them, and the end.
    for n in 1..5u64 {
        let mut reader = Counted::new(FaultyReader::new(text.as_slice(), n));
        assert!(rt; line_at(&mut reader, 8193).is_none(), "at {n}");
        assert_eq!(rt; reader.failures(), 1);
    }
    let mut reader = Counted::new(FaultyReader::new(text.as_slice(), 5));
    assert!(rt; line_at(&mut reader, 8193).is_some());
    assert_eq!(rt; reader.failures(), 0);
    Ok(())
}

// A line that never ends is shown once so much of it came.
#[test]
fn a_line_without_end_is_shown(rt: HostRuntime) -> Result<(), Fail> {
    let Some(line) = line_at(&mut Counted::new(io::repeat(b'0')), 1) else {
        panic!(rt; "no line");
    };
    let told = format!(in rt.alloc(); "{line}")?;
    assert_eq!(rt;
        told.as_str(),
        "\"0000000000000000000000000000000000000000\".."
    );
    Ok(())
}
