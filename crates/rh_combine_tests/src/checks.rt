//! Lists that are checked, and the reports of them.

use rh_bytes::{Counted, Nobody};
use rh_checks::{CheckFault, SHOWN_LINES, Span, Sums, check_list, tell_list};
use rh_faulty::{FaultyReader, FaultyWriter, Refusal};
use rh_forks::{Team, Workers};
use rh_key_files::KeyFault;
use rh_lists::ListFault;
use rh_numbers::TextFault;
use std::test::*;

const TEXT: &[u8] = b"id\n5\r\n\n4611686018427387903\n3\n5";

const KEYS: &[u8] = b"RHK2\0\0\0\0\0\0\0\x03\0\0\0\0\0\0\0\x11\0\0\0\0\0\0\0\x01\0\0\0\0\0\0\0\x11";

// A list, its report, and whether no line is bad.
const ROWS: &[(&[u8], &str, bool)] = &[
    (
        b"99\n1\n7\n1\n12\n",
        "list: 5 numbers, 4 different, from 1 to 99\n",
        true,
    ),
    (b"7", "list: 1 number, 1 different, from 7 to 7\n", true),
    (b"", "list: 0 numbers\n", true),
    (b"\xef\xbb\xbf\r\n#x\n", "list: 0 numbers\n", true),
    (
        b"x",
        "list: line 1: not a number from 0 to 4611686018427387902: \"x\"\nlist: 0 numbers\n",
        false,
    ),
    (
        TEXT,
        "list: line 1: not a number from 0 to 4611686018427387902: \"id\"\n\
         list: line 4: number above 4611686018427387902: \"4611686018427387903\"\n\
         list: 3 numbers, 2 different, from 3 to 5\n",
        false,
    ),
    (KEYS, "list: 3 numbers, 2 different, from 1 to 17\n", true),
];

#[test]
fn a_list_is_told(rt: HostRuntime) -> Result<(), Fail> {
    for &(list, report, good) in ROWS {
        for count in [1, 4] {
            let team = Team {
                rt: &rt,
                alloc: rt.alloc(),
                workers: Workers { count },
            };
            let mut reader = Counted::new(list);
            let mut writer = Counted::new(FaultyWriter::new(rt.alloc(), 0, Refusal::Error));
            let told = tell_list(&team, "list: ", &mut reader, &mut writer, &mut Nobody);
            assert_eq!(rt; told, Ok(good), "{report}");
            assert_eq!(rt; writer.get_ref().text(), report.as_bytes());
        }
    }
    Ok(())
}

#[test]
fn twenty_bad_lines_are_shown(rt: HostRuntime) -> Result<(), Fail> {
    let team = Team {
        rt: &rt,
        alloc: rt.alloc(),
        workers: Workers { count: 1 },
    };
    let text = b"x\n17\n".repeat(rt.alloc(), 23)?;
    let report = check_list(&team, &mut Counted::new(text.as_slice()), &mut Nobody);
    let Ok(report) = report else {
        return Err("no report".into());
    };
    assert_eq!(rt; report.bad.len(), SHOWN_LINES);
    let Some(last) = report.bad.last() else {
        return Err("no bad line".into());
    };
    assert_eq!(rt; last.line, 39);
    assert_eq!(rt; report.more, 3);
    let sums = Sums {
        count: 23,
        different: 1,
        span: Some(Span {
            least: 17,
            greatest: 17,
        }),
    };
    assert_eq!(rt; report.sums, sums);
    Ok(())
}

const TEXT_READ: ListFault = ListFault::Text(TextFault::Read);

const KEYS_READ: ListFault = ListFault::Keys(KeyFault::Read);

// A list, the read of it that fails, and what is told.
const FAILURES: &[(&[u8], u64, ListFault)] = &[
    (TEXT, 1, TEXT_READ),
    (TEXT, 2, TEXT_READ),
    (TEXT, 3, TEXT_READ),
    (KEYS, 1, TEXT_READ),
    (KEYS, 2, KEYS_READ),
    (KEYS, 3, KEYS_READ),
    (KEYS, 4, KEYS_READ),
    (
        b"RHK2\0\0\0\0\0\0\0\x03",
        0,
        ListFault::Keys(KeyFault::Short),
    ),
];

#[test]
fn a_list_that_is_not_read_is_not_told(rt: HostRuntime) -> Result<(), Fail> {
    let team = Team {
        rt: &rt,
        alloc: rt.alloc(),
        workers: Workers { count: 1 },
    };
    for &(list, read, fault) in FAILURES {
        let mut reader = Counted::new(FaultyReader::new(list, read));
        let mut writer = Counted::new(FaultyWriter::new(rt.alloc(), 0, Refusal::Error));
        let told = tell_list(&team, "", &mut reader, &mut writer, &mut Nobody);
        assert_eq!(rt; told, Err(CheckFault::List(fault)), "read {read}");
        assert!(rt; writer.get_ref().text().is_empty(), "read {read}");
    }
    Ok(())
}

#[test]
fn a_failed_write_is_told(rt: HostRuntime) -> Result<(), Fail> {
    let team = Team {
        rt: &rt,
        alloc: rt.alloc(),
        workers: Workers { count: 1 },
    };
    for refusal in [Refusal::Error, Refusal::TakesNothing] {
        let mut writer = Counted::new(FaultyWriter::new(rt.alloc(), 1, refusal));
        let told = tell_list(&team, "", &mut Counted::new(TEXT), &mut writer, &mut Nobody);
        assert_eq!(rt; told, Err(CheckFault::Write));
        assert_eq!(rt; writer.failures(), 1);
    }
    Ok(())
}
