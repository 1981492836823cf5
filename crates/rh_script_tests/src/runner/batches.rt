use super::*;
use rh_key_files::KeyFault;

// A list in memory, and the longest batch that it was asked to fill.
#[derive(Drop)]
struct Noting<'a> {
    keys: HeldKeys<'a>,
    longest: usize,
}

impl KeySource for Noting<'_> {
    ghost use Rattle.std.specs.Prelude.{None, Some, Ok, length};
    ghost use Rattle.rh_key_files.specs.HeldKeys.{rest_of};

    ghost coming = { λ list. Some (Ok (rest_of list.keys)) };

    ghost left_of = { λ list. length (rest_of list.keys) };

    ghost failed_with = { λ _. None };

    fn keys_left(&self) -> u64 {
        self.keys.keys_left()
    }

    fn next_keys(&mut self, batch: &mut [u64]) -> Result<usize, KeyFault> {
        self.longest = self.longest.max(batch.len());
        self.keys.next_keys(batch)
    }
}

fn watched<'a>(rt: &impl Abort, keys: &'a [u64]) -> Noting<'a> {
    let keys = list_of(rt, keys);
    Noting { keys, longest: 0 }
}

#[test]
fn a_list_is_read_through_by_4096_keys(rt: HostRuntime) -> Result<(), Fail> {
    let keys = many_keys(rt.alloc())?;
    let mut list = watched(&rt, &keys);
    read_through(&mut list)?;
    assert_eq!(rt; list.longest, 4_096);
    Ok(())
}

#[test]
fn one_worker_looks_up_4096_keys_at_a_time(rt: HostRuntime) -> Result<(), Fail> {
    let keys = many_keys(rt.alloc())?;
    let mut list = watched(&rt, &keys);
    look_up(&rt, &mut Single, &mut list)??;
    assert_eq!(rt; list.longest, 4_096);
    Ok(())
}

// A phase takes no more room than its list.
#[test]
fn a_short_list_is_taken_whole(rt: HostRuntime) -> Result<(), Fail> {
    for (keys, long) in [([9, 3].as_slice(), 2), ([].as_slice(), 1)] {
        let mut list = watched(&rt, keys);
        look_up(&rt, &mut Single, &mut list)??;
        assert_eq!(rt; list.longest, long);
    }
    Ok(())
}

#[test]
fn one_worker_inserts_4096_keys_at_a_time(rt: HostRuntime) -> Result<(), Fail> {
    let keys = many_keys(rt.alloc())?;
    let mut list = watched(&rt, &keys);
    let (told, _) = change(&rt, &mut Single, Kind::Insert, &[], &mut list)?;
    assert!(rt; told.is_ok());
    assert_eq!(rt; list.longest, 4_096);
    Ok(())
}

#[test]
fn one_worker_removes_4096_keys_at_a_time(rt: HostRuntime) -> Result<(), Fail> {
    let keys = many_keys(rt.alloc())?;
    let mut list = watched(&rt, &keys);
    let (told, _) = change(&rt, &mut Single, Kind::Remove, &[9], &mut list)?;
    assert!(rt; told.is_ok());
    assert_eq!(rt; list.longest, 4_096);
    Ok(())
}

// A runner that does not say how many keys it takes best: a phase that changes the table takes as
// many as may be added to one.
#[test]
fn a_table_is_changed_by_196608_keys(rt: HostRuntime) -> Result<(), Fail> {
    let keys = many_keys(rt.alloc())?;
    for kind in [Kind::Insert, Kind::Remove] {
        let mut list = watched(&rt, &keys);
        let mut refusing = Refusing { refused: 0 };
        let (told, _) = change(&rt, &mut refusing, kind, &[], &mut list)?;
        assert!(rt; told.is_err());
        assert_eq!(rt; list.longest, 196_608);
    }
    Ok(())
}

#[test]
fn a_list_is_looked_up_whole(rt: HostRuntime) -> Result<(), Fail> {
    let keys = many_keys(rt.alloc())?;
    let mut refusing = Refusing { refused: 0 };
    let mut list = watched(&rt, &keys);
    assert!(rt; look_up(&rt, &mut refusing, &mut list)?.is_err());
    assert_eq!(rt; list.longest, 200_000);
    Ok(())
}
