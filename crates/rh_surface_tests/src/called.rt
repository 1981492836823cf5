use crate::own::{Counting, OneFile};
use crate::{edit, files, grow, layout, ledger, planner, player, probe, tagword};
use rh_files::Counted;
use rh_ledger::Tally;
use rh_planner::Report;
use rh_probe::Look;
use std::io::Cursor;
use std::test::*;

// The functions of this crate are those that they are named for.
#[test]
fn the_calls_are_those_of_the_public_crates(rt: HostRuntime) -> Result<(), Fail> {
    let alloc = rt.alloc();
    assert_eq!(rt; layout::home(3, 9), 4);
    assert!(rt; layout::is_layout(3, &[0; 8]));
    assert_eq!(rt; probe::look(3, 9, &[0]), Look::Goes(0));
    assert_eq!(rt; grow::bits_for(3, 5, 20), Some(6));
    assert_eq!(rt; tagword::unpack(40), Some(rh_tagword::Word::Key(9)));
    let one = Tally {
        read: 1,
        added: 1,
        removed: 0,
        found: 0,
    };
    assert_eq!(rt; ledger::joined(one, one).map(|both| both.added), Some(2));
    let set = edit::seq_set_new(alloc, 3)?;
    assert!(rt; !edit::seq_set_has(&set, 9));
    assert_eq!(rt; edit::seq_set_len(&set), 0);
    assert!(rt; files::read_keys(alloc, &mut Counted::new(Cursor::new(b"RHK"))).is_err());
    assert!(rt; player::parse_play(alloc, b"play ask\n").is_err());
    assert!(rt; planner::parse(alloc, b"dump\n").is_ok());
    Ok(())
}

// A script over a shelf of the caller's own, by a runner of its own.
#[test]
fn a_caller_brings_a_shelf_and_a_runner(rt: HostRuntime) -> Result<(), Fail> {
    let alloc = rt.alloc();
    let script = planner::parse(alloc, b"use a a.keys\nadd a\ndump\n")?;
    let bytes = b"RHK2\0\0\0\0\0\0\0\x01\0\0\0\0\0\0\0\x05".to_vec(alloc)?;
    let mut shelf = OneFile { bytes, failures: 0 };
    let mut runner = Counting { phases: 0 };
    let mut writer = Counted::new(Vec::new(alloc));
    let report = planner::run(&rt, alloc, &script, &mut shelf, &mut runner, &mut writer)?;
    let expected = Report {
        commands: 3,
        held: 1,
        bits: 3,
    };
    assert_eq!(rt; report, expected);
    assert!(rt; runner.phases > 0);
    let told = "use a 1\nadd a read 1 added 1 held 1 bits 3\ntable 3 1\n0 5 0\nend\n";
    assert_eq!(rt; writer.into_inner().as_slice(), told.as_bytes());
    Ok(())
}
