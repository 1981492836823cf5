//! The new values of a segment.

ghost use Rattle.std.specs.Prelude.{◌≡◌, ◌+◌, ◌<◌, length, slice_index};
ghost use Rattle.rh_layout.specs.Key.{IsKey, cell_of};
ghost use Rattle.rh_edit.specs.News.{inserted_at, shifted_back};

/// Writes the segment with the key at offset `at`, and what stood from there on moved on by one
/// cell. The last cell of `seen`, the first empty one from `at` on, is what that fills.
#[tactic(auto, using(crate::proofs::NewsLemmas::inserted_list))]
pub fn insert_news(key: u64, seen: &[u64], at: usize, news: &mut [u64])
    requires key { IsKey key }
    requires lengths { length news.old ≡ length seen.now }
    requires at { at < length seen.now }
    ensures { news.new ≡ inserted_at (cell_of key) seen.now at }
{
    let value = rh_layout::cell_of(key);
    for i in 0..seen.len() {
        news[i] = value_with(value, seen, at, i);
    }
}

/// The new value at offset `i` where this one is put in at offset `at`.
#[tactic(auto, using(crate::proofs::NewsLemmas::inserted_values))]
pub fn value_with(value: u64, seen: &[u64], at: usize, i: usize) -> u64
    requires at { at < length seen.now }
    requires i { i < length seen.now }
    ensures { result ≡ slice_index (inserted_at value seen.now at) i }
{
    if i < at {
        seen[i]
    } else if i == at {
        value
    } else {
        seen[i - 1]
    }
}

/// Writes the segment without what stands at offset `at`: what stands after it, up to the offset
/// before the last, moves back by one, the offset before the last is empty, and the last stays.
#[tactic(auto, using(crate::proofs::NewsLemmas::shifted_list))]
pub fn remove_news(seen: &[u64], at: usize, news: &mut [u64])
    requires lengths { length news.old ≡ length seen.now }
    requires at { at + 1 < length seen.now }
    ensures { news.new ≡ shifted_back seen.now at }
{
    for i in 0..seen.len() {
        news[i] = value_without(seen, at, i);
    }
}

/// The new value at offset `i` where what stands at offset `at` is taken out.
#[tactic(auto, using(crate::proofs::NewsLemmas::shifted_values))]
pub fn value_without(seen: &[u64], at: usize, i: usize) -> u64
    requires at { at + 1 < length seen.now }
    requires i { i < length seen.now }
    ensures { result ≡ slice_index (shifted_back seen.now at) i }
{
    if i < at || i + 1 == seen.len() {
        seen[i]
    } else if i + 2 == seen.len() {
        0
    } else {
        seen[i + 1]
    }
}
