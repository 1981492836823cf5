//! How many numbers of lists in memory stand in just these of them.

ghost use Rattle.std.specs.Prelude.{◌≡◌, ℕ, ◌+◌, ◌^◌, ◌<◌, ◌≤◌, ◌==◌, All, IfOk, length, map};
ghost use Rattle.std.specs.List.{count_by};
ghost use Rattle.rh_layout.specs.Key.{IsKey};
ghost use Rattle.rh_questions.specs.Tallies.{AreTallies, IsCount};
ghost use Rattle.rh_questions.specs.declared.limits.TheConstants.{MOST_COMPARED};

use crate::rows::{Row, rows_of};
use std::alloc::{AllocError, Global};

/// A count of nothing for each combination of so many lists.
pub(crate) fn no_counts(alloc: Global, lists: usize) -> Result<Vec<u64>, AllocError>
    requires { lists ≤ MOST_COMPARED }
    ensures len { IfOk result (λ v. length v.items ≡ 2 ^ lists) }
    ensures none { IfOk result (λ v. (c : ℕ) → c < 2 ^ lists → IsCount v.items c 0) }
{
    vec![in alloc; 0u64; 1 << lists]
}

/// Counts each row at the place of its combination of lists. A count stops at the greatest `u64`.
pub(crate) fn count_rows(rows: &[Row], counts: &mut Vec<u64>)
    requires { All (λ r. r.lists < length counts.old.items) rows.now }
    ensures len { length counts.new.items ≡ length counts.old.items }
    ensures counts { (c n : ℕ) → c < length counts.old.items → IsCount counts.old.items c n →
        IsCount counts.new.items c (n + count_by (λ r. r.lists == c) rows.now) }
{
    for row in rows {
        let place = row.lists as usize;
        counts[place] = counts[place].saturating_add(1);
    }
}

/// How many numbers stand in each combination of the lists, which may be of any length, with
/// repeats, in any order: at place c those that stand in just the lists i of which c has bit i.
/// Place 0 has none. `AllocError` comes only for want of memory.
pub fn compare(alloc: Global, lists: &[&[u64]]) -> Result<Vec<u64>, AllocError>
    requires few { length lists.now ≤ MOST_COMPARED }
    requires keys { All (λ l. All IsKey l.now) lists.now }
    ensures { IfOk result (λ v. AreTallies (map (λ l. l.now) lists.now) v.items) }
{
    let rows = rows_of(alloc, lists, 0)?;
    let mut counts = no_counts(alloc, lists.len())?;
    count_rows(&rows, &mut counts);
    Ok(counts)
}
