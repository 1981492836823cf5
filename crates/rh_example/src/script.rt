//! A script over files in memory: it keeps the keys that two lists share.

ghost use Rattle.std.specs.Prelude.{◌≤◌, All, length};
ghost use Rattle.rh_layout.specs.Key.{IsKey};
ghost use Rattle.rh_layout.specs.declared.limits.TheConstants.{MAX_KEYS};

use rh_planner::{
    Counted, MemShelf, Report, Shelf, Single, Threads, WriteFault, parse, run_twice, write_keys,
};
use std::alloc::Global;
use std::sync::Wait;
use std::thread;

const SCRIPT: &str = "\
use spring spring.keys
use summer summer.keys
add spring
keep summer
dump
";

/// What two runs of the script told: one worker's text and report, and whether four told the same.
#[derive(Drop)]
pub(crate) struct Told {
    pub(crate) text: Vec<u8>,
    pub(crate) report: Report,
    pub(crate) is_same: bool,
}

/// Carries the script out twice, by one worker and by four.
pub(crate) fn shared_keys<R: thread::Threads + Wait + Sync>(
    rt: &R,
    alloc: Global,
) -> anyhow::Result<Told> {
    let script = parse(alloc, SCRIPT.as_bytes())?;
    let (mut shelf, mut other_shelf) = (two_lists(alloc)?, two_lists(alloc)?);
    let (mut told, mut other_told) = (Counted::new(Vec::new(alloc)), Counted::new(Vec::new(alloc)));
    let (by_one, by_four) = run_twice(
        rt,
        alloc,
        &script,
        &mut shelf,
        &mut Single,
        &mut told,
        &mut other_shelf,
        &mut Threads::new(4),
        &mut other_told,
    );
    let (report, other_report) = (by_one?, by_four?);
    let (text, other_text) = (told.into_inner(), other_told.into_inner());
    let is_same = report == other_report && text == other_text;
    Ok(Told {
        text,
        report,
        is_same,
    })
}

/// A shelf with both lists.
fn two_lists(alloc: Global) -> anyhow::Result<MemShelf> {
    let mut shelf = MemShelf::new(alloc);
    shelf.put(
        alloc,
        "spring.keys",
        &key_file(alloc, &[1, 4, 9, 16, 25, 36])?,
    )?;
    shelf.put(alloc, "summer.keys", &key_file(alloc, &[2, 4, 8, 16, 32])?)?;
    Ok(shelf)
}

/// The key file of these keys.
fn key_file(alloc: Global, keys: &[u64]) -> Result<Vec<u8>, WriteFault>
    requires few { length keys.now ≤ MAX_KEYS }
    requires keys { All IsKey keys.now }
{
    let mut file = Counted::new(Vec::new(alloc));
    write_keys(keys, &mut file)?;
    Ok(file.into_inner())
}
