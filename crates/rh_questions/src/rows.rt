//! The numbers of lists, and in which of the lists each stands.

ghost use Rattle.std.specs.Prelude.{◌≡◌, ℕ, ◌+◌, ◌^◌, ◌<◌, ◌≤◌, ◌==◌, All, IfOk, cond, length, map};
ghost use Rattle.rh_layout.specs.Key.{IsKey};
ghost use Rattle.rh_combine.specs.Combine.{has};
ghost use Rattle.rh_questions.specs.Rows.{AreNumbersOf, AreRows, IsHead, Rise, coded, lists_of};
ghost use Rattle.rh_questions.specs.Selections.{row_of};

use std::alloc::{AllocError, Global};

/// A number, and the lists in which it stands: bit i of the word says it of list i.
#[derive(Clone, Copy)]
pub(crate) struct Row {
    pub(crate) number: u64,
    pub(crate) lists: u64,
}

/// The numbers of a list, each once, in rising order.
fn sorted(alloc: Global, keys: &[u64]) -> Result<Vec<u64>, AllocError>
    requires { All IsKey keys.now }
    ensures { IfOk result (λ v. AreNumbersOf keys.now v.items) }
{
    let mut numbers = Vec::with_capacity(alloc, keys.len())?;
    numbers.extend_from_slice(keys)?;
    numbers.sort_unstable();
    numbers.dedup();
    Ok(numbers)
}

/// The rows of one list, whose bit this is.
fn of_list(alloc: Global, keys: &[u64], bit: u64) -> Result<Vec<Row>, AllocError>
    requires some { 0 < bit }
    requires keys { All IsKey keys.now }
    ensures { IfOk result (λ v. AreRows (λ k. cond (has keys.now k) bit 0) v.items) }
{
    let numbers = sorted(alloc, keys)?;
    let mut rows = Vec::with_capacity(alloc, numbers.len())?;
    for number in &numbers {
        rows.push(Row {
            number: *number,
            lists: bit,
        })?;
    }
    Ok(rows)
}

/// The row at this place; behind the last one stands no list, and a number above all.
fn head(rows: &[Row], at: usize) -> Row
    ensures { IsHead rows.now at result }
{
    if at < rows.len() {
        rows[at]
    } else {
        Row {
            number: u64::MAX,
            lists: 0,
        }
    }
}

/// The lists that the row has for a number.
fn lists_at(row: Row, number: u64) -> u64
    ensures { result ≡ cond (row.number == number) row.lists 0 }
{
    if row.number == number { row.lists } else { 0 }
}

/// The rows of some lists and of others, as those of all of them.
fn merge(alloc: Global, some: &[Row], others: &[Row]) -> Result<Vec<Row>, AllocError>
    requires some { Rise some.now }
    requires others { Rise others.now }
    requires fits { (k : ℕ) → lists_of some.now k + lists_of others.now k < 2 ^ 64 }
    ensures { IfOk result (λ v. AreRows
        (λ k. lists_of some.now k + lists_of others.now k) v.items) }
{
    let mut all = Vec::with_capacity(alloc, some.len().saturating_add(others.len()))?;
    let mut i = 0;
    let mut j = 0;
    while i < some.len() || j < others.len() {
        let first = head(some, i);
        let second = head(others, j);
        let number = first.number.min(second.number);
        let lists = lists_at(first, number) + lists_at(second, number);
        all.push(Row { number, lists })?;
        i += usize::from(first.number == number);
        j += usize::from(second.number == number);
    }
    Ok(all)
}

/// The rows of the lists, of which the first has this place among all.
pub(crate) fn rows_of(alloc: Global, lists: &[&[u64]], place: usize) -> Result<Vec<Row>, AllocError>
    requires few { place + length lists.now ≤ 64 }
    requires keys { All (λ l. All IsKey l.now) lists.now }
    ensures { IfOk result (λ v. AreRows
        (λ k. coded place (row_of (map (λ l. l.now) lists.now) k)) v.items) }
{
    if lists.is_empty() {
        return Ok(Vec::new(alloc));
    }
    if lists.len() == 1 {
        return of_list(alloc, lists[0], 1 << place);
    }
    let half = lists.len() / 2;
    let (first, second) = lists.split_at(half);
    let some = rows_of(alloc, first, place)?;
    let others = rows_of(alloc, second, place + half)?;
    merge(alloc, &some, &others)
}
