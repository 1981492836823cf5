//! Which numbers of lists in memory are wanted.

ghost use Rattle.std.specs.Prelude.{◌≡◌, ◌≤◌, ℕ, List, All, IfOk, length, map};
ghost use Rattle.rh_layout.specs.Key.{IsKey};
ghost use Rattle.rh_questions.specs.Rows.{AreRows, coded};
ghost use Rattle.rh_questions.specs.Selections.{row_of, selected};
ghost use Rattle.rh_questions.specs.declared.limits.TheConstants.{MOST_LISTS};
ghost use Rattle.rh_questions.specs.ByNumber.{selected_by_number};

use crate::rows::{Row, rows_of};
use crate::selection::Selection;
use crate::value::wants;
use rh_combine_workers::Question;
use std::alloc::{AllocError, Global};

/// The numbers of these rows that are wanted.
fn wanted(alloc: Global, selection: &Selection, rows: &[Row]) -> Result<Vec<u64>, AllocError>
    ensures { IfOk result (λ v. (lists : List (List ℕ)) →
        AreRows (λ k. coded 0 (row_of lists k)) rows.now → v.items ≡ selected selection.now lists) }
{
    let mut numbers = Vec::new(alloc);
    for row in rows {
        if wants(selection, row.lists) {
            numbers.push(row.number)?;
        }
    }
    Ok(numbers)
}

impl Question for Selection {
    ghost answer = { selected };

    ghost takes = { λ selection lists. lists ≤ MOST_LISTS };

    ghost by_number = { λ selection. selected_by_number selection };

    fn ask(&self, alloc: Global, lists: &[&[u64]]) -> Result<Vec<u64>, AllocError> {
        let rows = rows_of(alloc, lists, 0)?;
        wanted(alloc, self, &rows)
    }
}
