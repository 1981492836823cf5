//! Laws of edits of a segment. They do nothing when they run.

ghost use Rattle.std.specs.Prelude.{◌≡◌, IsTrue, false};
ghost use Rattle.std.specs.FinSet as set;
ghost use Rattle.std.specs.FinSet.{contains};
ghost use Rattle.rh_layout.specs.Key.{IsKey};
ghost use Rattle.rh_layout.specs.Layout.{Keys, Layout, HasTwoFree};
ghost use Rattle.rh_edit.specs.Acts.{InsertsIn, RemovesFrom};

/// Where a segment of a layout of S, from the key's home to the first empty cell, is written over
/// by what `insert_news` gives for the offset that `look` names, the cells are the layout of S and
/// the key.
pub fn insert_segment(bits: u32, old: &[u64], new: &[u64], key: u64, seen: &[u64])
    requires { IsKey key }
    ensures { (S : Keys) → Layout old.now bits S → HasTwoFree old.now →
        InsertsIn bits key old.now new.now seen.now →
        (contains S key ≡ false) × Layout new.now bits (set.insert S key) }
{
    let _ = bits;
    let _ = old;
    let _ = new;
    let _ = key;
    let _ = seen;
}

/// Where a segment of a layout of S, from the key's home to the first cell after the key that is
/// empty or holds a key at home, is written over by what `remove_news` gives for the offset of the
/// key, the cells are the layout of S without the key.
pub fn remove_segment(bits: u32, old: &[u64], new: &[u64], key: u64, seen: &[u64])
    ensures { (S : Keys) → Layout old.now bits S →
        RemovesFrom bits key old.now new.now seen.now →
        IsTrue (contains S key) × Layout new.now bits (set.remove S key) }
{
    let _ = bits;
    let _ = old;
    let _ = new;
    let _ = key;
    let _ = seen;
}
