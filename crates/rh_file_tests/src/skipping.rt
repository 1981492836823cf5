use rh_faulty::FaultyReader;
use rh_lists::Skipping;
use std::alloc::{AllocError, Global};
use std::io::Read;
use std::test::*;

// A list, how many lines of it are passed by, and what is given of it: blank lines first.
const SKIPPED: &[(&[u8], u64, &[u8])] = &[
    (b"", 0, b""),
    (b"", 7, b""),
    (b"id\n5\n2\n", 0, b"id\n5\n2\n"),
    (b"id\n5\n2\n", 1, b"  \n5\n2\n"),
    (b"id\r\n5\r\n", 1, b"   \n5\r\n"),
    (b"\n\nx\n5", 3, b"\n\n \n5"),
    (b"\n\nx\n5", 4, b"\n\n \n "),
    (b"a;b", 1, b"   "),
    (b"a\nRHK2\n5\n", 1, b" \nRHK2\n5\n"),
    (b"RHK2", 1, b"RHK2"),
    (b"RHK1\n5\n", 2, b"RHK1\n5\n"),
    (b"RHK3\n5\n", 1, b"    \n5\n"),
    (b"RHK", 1, b"   "),
];

// All that the reader gives to buffers of so many bytes. A failed read is followed by the next.
fn given_by<R: Read + Drop>(
    alloc: Global,
    mut reader: R,
    bytes: usize,
) -> Result<Vec<u8>, AllocError> {
    let mut given = Vec::new(alloc);
    let mut room = [0; 8];
    let room = &mut room[..bytes.min(8)];
    for _ in 0..100 {
        match reader.read(room) {
            Ok(0) => return Ok(given),
            Ok(count) => given.extend_from_slice(&room[..count])?,
            Err(_) => {}
        }
    }
    Ok(given)
}

#[test]
fn the_first_lines_of_a_text_are_given_as_blank_ones(rt: HostRuntime) -> Result<(), Fail> {
    for &(list, lines, given) in SKIPPED {
        for bytes in 1..9usize {
            let came = given_by(rt.alloc(), Skipping::new(lines, list), bytes)?;
            assert_eq!(rt; came.as_slice(), given, "{list:?} {lines} {bytes}");
        }
    }
    Ok(())
}

#[test]
fn a_failed_read_loses_no_byte(rt: HostRuntime) -> Result<(), Fail> {
    for &(list, lines, given) in SKIPPED {
        for fails_at in 1..9u64 {
            let reader = Skipping::new(lines, FaultyReader::new(list, fails_at));
            let came = given_by(rt.alloc(), reader, 3)?;
            assert_eq!(rt; came.as_slice(), given, "{list:?} {lines} {fails_at}");
        }
    }
    Ok(())
}
