use rh_faulty::{FaultyWriter, Refusal};
use rh_key_files::{Counted, WriteFault};
use rh_report::*;
use std::test::*;

const LINES: &str = "use a 3\n\
    add a read 7 added 1 held 1 bits 4\n\
    drop a read 5 removed 2 held 6 bits 4\n\
    keep b read 2 found 2 held 2 bits 3\n\
    flip b read 2 removed 2 added 0 held 3 bits 3\n\
    save s 5\n\
    clear\n\
    snapshot s.rhs2 held 3 bits 4\n\
    restore s.rhs2 held 3 bits 4\n";

fn changed(name: &str, read: u64, change: Change, table: Table) -> Account<'_> {
    Account::Changed {
        name,
        read,
        change,
        table,
    }
}

#[test]
fn each_command_has_its_line(rt: HostRuntime) -> Result<(), Fail> {
    let mut writer = Counted::new(Vec::new(rt.alloc()));
    let (removed, added) = (2, 0);
    let (name, path, table) = ("s", "s.rhs2", Table { held: 3, bits: 4 });
    let accounts = [
        Account::Used {
            name: "a",
            count: 3,
        },
        changed("a", 7, Change::Added(1), Table { held: 1, bits: 4 }),
        changed("a", 5, Change::Dropped(2), Table { held: 6, bits: 4 }),
        changed("b", 2, Change::Kept(2), Table { held: 2, bits: 3 }),
        changed(
            "b",
            2,
            Change::Flipped { removed, added },
            Table { held: 3, bits: 3 },
        ),
        Account::Saved { name, count: 5 },
        Account::Cleared,
        Account::Sealed { path, table },
        Account::Restored { path, table },
    ];
    for account in &accounts {
        write_account(&mut writer, account)?;
    }
    assert_eq!(rt; writer.failures(), 0);
    assert_eq!(rt; writer.into_inner().as_slice(), LINES.as_bytes());
    Ok(())
}

const THREE_ANSWERS: &str = "ask c read 3 found 2\n101\n";

const ANSWERS: &[(&[bool], &str)] = &[
    (&[], "ask c read 0 found 0\n"),
    (&[true, false, true], THREE_ANSWERS),
    (
        &[true; 64],
        "ask c read 64 found 64\n\
        1111111111111111111111111111111111111111111111111111111111111111\n",
    ),
    (
        &[false; 65],
        "ask c read 65 found 0\n\
        0000000000000000000000000000000000000000000000000000000000000000\n\
        0\n",
    ),
    (
        &[true; 128],
        "ask c read 128 found 128\n\
        1111111111111111111111111111111111111111111111111111111111111111\n\
        1111111111111111111111111111111111111111111111111111111111111111\n",
    ),
];

#[test]
fn answers_have_64_on_a_line(rt: HostRuntime) -> Result<(), Fail> {
    for &(answers, text) in ANSWERS {
        let mut writer = Counted::new(Vec::new(rt.alloc()));
        write_asked(&mut writer, "c", answers)?;
        assert_eq!(rt; writer.into_inner().as_slice(), text.as_bytes());
    }
    Ok(())
}

#[test]
fn each_write_fails(rt: HostRuntime) {
    for refusal in [Refusal::Error, Refusal::TakesNothing] {
        // Seven writes for the first line, and two for that of the digits.
        for n in 1..11u64 {
            let mut writer = Counted::new(FaultyWriter::new(rt.alloc(), n, refusal));
            let outcome = write_asked(&mut writer, "c", &[true, false, true]);
            let fault = if n < 10 {
                Some(WriteFault::Write)
            } else {
                None
            };
            assert_eq!(rt; outcome.err(), fault, "at {n}");
            assert_eq!(rt; writer.failures(), u64::from(n < 10));
            let text = writer.get_ref().text();
            assert!(rt; THREE_ANSWERS.as_bytes().starts_with(text), "at {n}");
        }
    }
}
