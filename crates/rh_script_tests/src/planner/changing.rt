use super::*;

// A shelf that gives one file after the other, at whatever path.
#[derive(Drop)]
struct ChangingShelf<'a> {
    files: &'a [&'a [u8]],
    fetched: usize,
}

impl Shelf for ChangingShelf<'_> {
    type Reader = Cursor<Vec<u8>>;

    ghost use Rattle.std.specs.Prelude.{None};
    ghost use Rattle.rh_bytes.specs.Counting.{last_count};

    ghost files = { λ _. None };

    ghost failures = { λ _. last_count };

    fn fetch(&mut self, alloc: Global, _path: &str) -> Result<Cursor<Vec<u8>>, ShelfFault> {
        let file = self.files.get(self.fetched).ok_or(ShelfFault::Memory)?;
        self.fetched = self.fetched.saturating_add(1);
        let mut bytes = Vec::new(alloc);
        bytes.extend_from_slice(file)?;
        Ok(Cursor::new(bytes))
    }

    fn put(&mut self, _alloc: Global, _path: &str, _bytes: &[u8]) -> Result<(), ShelfFault> {
        Err(ShelfFault::Memory)
    }
}

// A script over files that are fetched one after the other tells this and ends so at this line.
fn ends_at(
    rt: &(impl Threads + Wait + Sync + Abort + AllocGlobal),
    files: &[&[u8]],
    script: &str,
    told: &str,
    end: RunFault,
) -> Result<(), Fail> {
    let mut shelf = ChangingShelf { files, fetched: 0 };
    let ran = run_over(rt, &mut shelf, script)?;
    assert_told(rt, &ran, told.as_bytes(), Some(end), &script);
    Ok(())
}

const NO_KEY: &[u8] = b"RHK2\0\0\0\0\0\0\0\0";

const FIVE: &[u8] = b"RHK2\0\0\0\0\0\0\0\x01\0\0\0\0\0\0\0\x05";

const FIVE_TWICE: &[u8] = b"RHK2\0\0\0\0\0\0\0\x02\0\0\0\0\0\0\0\x05\0\0\0\0\0\0\0\x05";

// The second key is out of range.
const FIVE_BAD: &[u8] = b"RHK1\0\0\0\0\0\0\0\x02\0\0\0\0\0\0\0\x05\0\0\0\0\0\0\0\0";

const NO_LIST: &[u8] = b"RHKX";

const NOT_KEYS: Cause = Cause::Keys(KeyFault::NotKeys);

// What a list of the key 5 alone gives at the next fetch, and the cause: the header comes first,
// then the count, then the keys.
const AT_THE_SECOND_FETCH: &[(&[u8], Cause)] = &[
    (NO_LIST, NOT_KEYS),
    (b"RHK2\0\0\0\0\0\0\0", Cause::Keys(KeyFault::Short)),
    (NO_KEY, Cause::Changed),
    (FIVE_BAD, Cause::Changed),
];

#[test]
fn a_list_that_changes(rt: HostRuntime) -> Result<(), Fail> {
    for &(file, cause) in AT_THE_SECOND_FETCH {
        let end = RunFault { line: 2, cause };
        for script in [
            "use k k\nadd k\n",
            "use k k\ndrop k\n",
            "use k k\nask k\n",
            "use k k\nkeep k\n",
            "use k k\nflip k\n",
        ] {
            ends_at(&rt, &[FIVE, file], script, "use k 1\n", end)?;
        }
    }
    Ok(())
}

#[test]
fn a_long_list_that_changes(rt: HostRuntime) -> Result<(), Fail> {
    let mut file = Vec::new(rt.alloc());
    file.extend_from_slice(b"RHK2\0\0\0\0\0\0\x27\x10")?;
    for key in 0..10_000u64 {
        file.extend_from_slice(&key.to_be_bytes())?;
    }
    let cause = Cause::Changed;
    let end = RunFault { line: 2, cause };
    let files = [file.as_slice(), FIVE];
    ends_at(&rt, &files, "use k k.keys\nadd k\n", "use k 10000\n", end)
}

// Each command opens its list once.
#[test]
fn a_list_is_fetched_once_by_each_command(rt: HostRuntime) -> Result<(), Fail> {
    for (script, told) in [
        (
            "use k k\nadd k\n",
            "use k 2\nadd k read 2 added 1 held 1 bits 3\n",
        ),
        (
            "use k k\ndrop k\n",
            "use k 2\ndrop k read 2 removed 0 held 0 bits 3\n",
        ),
        ("use k k\nask k\n", "use k 2\nask k read 2 found 0\n00\n"),
        (
            "use k k\nkeep k\n",
            "use k 2\nkeep k read 2 found 0 held 0 bits 3\n",
        ),
        (
            "use k k\nflip k\n",
            "use k 2\nflip k read 2 removed 0 added 1 held 1 bits 3\n",
        ),
    ] {
        let files: &[&[u8]] = &[FIVE_TWICE, FIVE_TWICE];
        let mut shelf = ChangingShelf { files, fetched: 0 };
        let ran = run_over(&rt, &mut shelf, script)?;
        assert_told(&rt, &ran, told.as_bytes(), None, &script);
        assert_eq!(rt; shelf.fetched, 2, "{script}");
    }
    Ok(())
}

// One key more than a table takes, in a file of the first version, where a 0 is no key.
const MANY: u64 = 196_609;

fn many_keys(alloc: Global, key: u64, last: u64) -> Result<Vec<u8>, Fail> {
    let mut file = Vec::new(alloc);
    file.extend_from_slice(b"RHK1\0\0\0\0\0\x03\0\x01")?;
    for i in 1..=MANY {
        let key = if i == MANY { last } else { key };
        file.extend_from_slice(&key.to_be_bytes())?;
    }
    Ok(file)
}

// What the list gives at the next fetch, and why it is not added: the header and the count come
// before the size, and no key does.
#[test]
fn a_list_that_is_too_long_to_be_added(rt: HostRuntime) -> Result<(), Fail> {
    let good = many_keys(rt.alloc(), 5, 5)?;
    let bad = many_keys(rt.alloc(), 5, 0)?;
    for (file, cause) in [
        (NO_LIST, NOT_KEYS),
        (FIVE_BAD, Cause::Changed),
        (good.as_slice(), Cause::TooLarge),
        (bad.as_slice(), Cause::TooLarge),
    ] {
        let end = RunFault { line: 2, cause };
        let files = [good.as_slice(), file];
        ends_at(&rt, &files, "use k k\nadd k\n", "use k 196609\n", end)?;
    }
    Ok(())
}

// `keep` and `flip` count places, of which these lists have too many; that comes after each fault
// of the list.
#[test]
fn a_list_that_has_too_many_places(rt: HostRuntime) -> Result<(), Fail> {
    let told = "use s 1\nadd s read 1 added 1 held 1 bits 3\nuse k 196609\n";
    for (script, key) in [
        ("use s s\nadd s\nuse k k\nkeep k\n", 5),
        ("use s s\nadd s\nuse k k\nflip k\n", 6),
    ] {
        let good = many_keys(rt.alloc(), key, key)?;
        let bad = many_keys(rt.alloc(), key, 0)?;
        let last = Cause::Keys(KeyFault::BadKey { index: 196_608 });
        for (file, cause) in [(&good, Cause::TooLarge), (&bad, last)] {
            let files = [FIVE, FIVE, good.as_slice(), file.as_slice()];
            ends_at(&rt, &files, script, told, RunFault { line: 4, cause })?;
        }
    }
    Ok(())
}
