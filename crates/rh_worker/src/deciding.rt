//! What the cells from a key's home on lead to, and the entries of the key's act.

ghost use Rattle.std.specs.Prelude.{◌≡◌, ◌≤◌, ◌++◌, ℕ, List, drop, length, map, slice_index, take};
ghost use Rattle.rh_acts.specs.Decision.{CanAct};
ghost use Rattle.rh_layout.specs.Key.{IsBits, IsKey};
ghost use Rattle.rh_layout.specs.declared.entry.Entry.{Entry};
ghost use Rattle.rh_tagword.specs.Word.{IsValue};
ghost use Rattle.rh_worker.specs.Deciding.{AreValued, Decides, worded};
ghost use Rattle.rh_worker.specs.declared.deciding.Decision.TheVariants.{Acts};
ghost use Rattle.rh_ledger.specs.declared.tally.Kind.TheVariants.{Insert, Remove, Ask};

use crate::stage::Plan;
use rh_acts::{Insertion, Removal, insert_entries, remove_entries};
use rh_layout::Entry;
use rh_ledger::Kind;
use rh_probe::{Look, look};
use rh_tagword::plain_word;

/// What the cells that were seen lead to.
#[derive(Clone, Copy)]
pub enum Decision {
    /// The key is done, with this answer.
    Done(bool),
    /// An own descriptor is asked for.
    Acts(Plan),
    /// More cells have to be seen.
    More,
}

/// What is to be done with the key where the cells from its home on hold this. The entries that it
/// asks for are the first of `entries`, in the order of their cells, with plain words for values.
pub fn decide(kind: Kind, bits: u32, key: u64, seen: &[u64], entries: &mut [Entry]) -> Decision
    requires can { CanAct bits key seen.now entries.old }
    requires values { (p : ℕ) → IsValue (slice_index seen.now p) }
    ensures { Decides kind bits key seen.now entries.new result }
{
    match kind {
        Kind::Insert => insertion(bits, key, seen, entries),
        Kind::Remove => removal(bits, key, seen, entries),
        Kind::Ask => answer(bits, key, seen),
    }
}

fn insertion(bits: u32, key: u64, seen: &[u64], entries: &mut [Entry]) -> Decision
    requires can { CanAct bits key seen.now entries.old }
    requires values { (p : ℕ) → IsValue (slice_index seen.now p) }
    ensures { Decides Insert bits key seen.now entries.new result }
{
    match insert_entries(bits, key, seen, entries) {
        Insertion::Held => Decision::Done(false),
        Insertion::PutsIn(count) => plan(entries, count, true),
        Insertion::More => Decision::More,
    }
}

fn removal(bits: u32, key: u64, seen: &[u64], entries: &mut [Entry]) -> Decision
    requires can { CanAct bits key seen.now entries.old }
    requires values { (p : ℕ) → IsValue (slice_index seen.now p) }
    ensures { Decides Remove bits key seen.now entries.new result }
{
    match remove_entries(bits, key, seen, entries) {
        Removal::TakesOut(count) => plan(entries, count, true),
        Removal::ShowsAbsent(count) => plan(entries, count, false),
        Removal::More => Decision::More,
    }
}

/// Asks for a descriptor of the first `count` entries, whose values become words.
fn plan(entries: &mut [Entry], count: usize, changes: bool) -> Decision
    requires within { count ≤ length entries.old }
    requires values { AreValued (take count entries.old) }
    ensures entries { entries.new ≡ map worded (take count entries.old) ++ drop count entries.old }
    ensures plan { result ≡ Acts (record { entries = count; changes = changes }) }
{
    word_all(&mut entries[..count]);
    Decision::Acts(Plan {
        entries: count,
        changes,
    })
}

/// Makes the values of all of them the words that say them.
fn word_all(entries: &mut [Entry])
    requires { AreValued entries.old }
    ensures { entries.new ≡ map worded entries.old }
{
    for entry in entries.iter_mut() {
        entry.old = plain_word(entry.old);
        entry.new = plain_word(entry.new);
    }
}

fn answer(bits: u32, key: u64, seen: &[u64]) -> Decision
    requires bits { IsBits bits }
    requires key { IsKey key }
    ensures { (entries : List Entry) → Decides Ask bits key seen.now entries result }
{
    match look(bits, key, seen) {
        Look::Here(_) => Decision::Done(true),
        Look::Goes(_) => Decision::Done(false),
        Look::More => Decision::More,
    }
}
