//! What is asked of lists, in one type.

ghost use Rattle.std.specs.Prelude.{◌≡◌, ℕ, List, All, IfOk, length, map};
ghost use Rattle.rh_layout.specs.Key.{IsKey};
ghost use Rattle.rh_questions.specs.ByNumber.{wanted_by_number};
ghost use Rattle.rh_questions.specs.Wanted.{Takes, wanted};

use crate::selection::Selection;
use rh_combine::How;
use rh_combine_workers::Question;
use std::alloc::{AllocError, Global};

/// What is asked of lists.
#[derive(Drop)]
pub enum Wanted {
    /// What is made of them, of any number of lists.
    Made(How),
    /// The numbers that are selected, of up to `MOST_LISTS` lists.
    Selected(Selection),
}

impl Question for Wanted {
    ghost answer = { wanted };

    ghost takes = { Takes };

    ghost by_number = { wanted_by_number };

    fn ask(&self, alloc: Global, lists: &[&[u64]]) -> Result<Vec<u64>, AllocError> {
        match self {
            Wanted::Made(how) => how.ask(alloc, lists),
            Wanted::Selected(selection) => selection.ask(alloc, lists),
        }
    }
}
