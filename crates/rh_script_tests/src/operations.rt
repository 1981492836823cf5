use rh_edit::SeqSet;
use rh_key_files::KeyFault;
use rh_operations::*;
use rh_runner::{Host, Single};
use rh_script::Action;
use rh_shelf::{MemShelf, Shelf};
use std::process::Abort;
use std::sync::Wait;
use std::test::*;
use std::thread::Threads;

// Why the action on this table by this list is refused.
fn refused(
    rt: &(impl Threads + Wait + Sync + AllocGlobal),
    shelf: &mut MemShelf,
    set: &mut SeqSet,
    list: &KeyList<'_>,
    action: Action,
) -> Option<Cause> {
    let alloc = rt.alloc();
    operate(&Host { rt, alloc }, shelf, &mut Single, set, list, action).err()
}

const ACTIONS: &[(Action, &str)] = &[
    (Action::Add, "add"),
    (Action::Drop, "drop"),
    (Action::Keep, "keep"),
    (Action::Flip, "flip"),
    (Action::Ask, "ask"),
];

// Key files that are refused: the count that they name, their bytes, and why. The last ones begin
// with a key that is good.
const REFUSED: &[(u64, &[u8], KeyFault)] = &[
    (1, b"RHKX", KeyFault::NotKeys),
    (1, b"RHK", KeyFault::Short),
    (1, b"RHK2\0\0\0\0\0\0\0", KeyFault::Short),
    (
        1_000_001,
        b"RHK2\0\0\0\0\0\x0f\x42\x41\0\0\0\0\0\0\0\x05",
        KeyFault::TooMany,
    ),
    (
        2,
        b"RHK2\0\0\0\0\0\0\0\x02\0\0\0\0\0\0\0\x05\0\0\0\0\0\0\0",
        KeyFault::Short,
    ),
    (
        2,
        b"RHK1\0\0\0\0\0\0\0\x02\0\0\0\0\0\0\0\x05\0\0\0\0\0\0\0\0",
        KeyFault::BadKey { index: 1 },
    ),
    (
        2,
        b"RHK2\0\0\0\0\0\0\0\x02\0\0\0\0\0\0\0\x05\x3f\xff\xff\xff\xff\xff\xff\xff",
        KeyFault::BadKey { index: 1 },
    ),
    (
        2,
        b"RHK2\0\0\0\0\0\0\0\x02\0\0\0\0\0\0\0\x05\0\0\0\0\0\0\0\x09\0",
        KeyFault::Long,
    ),
];

// The table of 1, 9 and 17 is as it was after each action on this list, which is refused so.
fn assert_refused(
    rt: &(impl Threads + Wait + Sync + Abort + AllocGlobal),
    shelf: &mut MemShelf,
    list: &KeyList<'_>,
    cause: Cause,
) -> Result<(), Fail> {
    for (action, name) in ACTIONS {
        let mut set = SeqSet::from_keys(rt.alloc(), 3, &[1, 9, 17])?;
        let told = refused(rt, shelf, &mut set, list, *action);
        assert_eq!(rt; told, Some(cause), "{name}");
        assert_eq!(rt; set.bits(), 3, "{name} by {cause:?}");
        let cells = [0, 0, 0, 0, 2, 10, 18, 0];
        assert_eq!(rt; set.cells(), cells.as_slice(), "{name} by {cause:?}");
    }
    Ok(())
}

#[test]
fn a_refused_list_leaves_the_table(rt: HostRuntime) -> Result<(), Fail> {
    let mut shelf = MemShelf::new(rt.alloc());
    let source = Source::Path("k");
    let missing = KeyList { source, count: 1 };
    assert_refused(&rt, &mut shelf, &missing, Cause::Missing)?;
    for &(count, bytes, fault) in REFUSED {
        shelf.put(rt.alloc(), "k", bytes)?;
        let source = Source::Path("k");
        let list = KeyList { source, count };
        let used = use_file(rt.alloc(), &mut shelf, "k").err();
        assert_eq!(rt; used, Some(Cause::Keys(fault)));
        assert_refused(&rt, &mut shelf, &list, Cause::Keys(fault))?;
    }
    Ok(())
}
