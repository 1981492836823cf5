//! A law of lists, as a function that does nothing.

ghost use Rattle.std.specs.Prelude.{List, Option, Some, ℕ};
ghost use Rattle.rh_lists.specs.Lists.{Agree, ReadsKeyList};

use crate::fault::ListFault;
use rh_cutting::KeyList;

/// What two readings of the same bytes answer is the same, whoever reads them, and in whatever
/// blocks: the same keys, or the same fault, but for want of memory, failed reads and texts that
/// are too long.
pub fn lists_agree(first: &Result<KeyList, ListFault>, second: &Result<KeyList, ListFault>)
    ensures { (bytes : List ℕ) (left rest : Option (List ℕ)) →
        ReadsKeyList (Some bytes) left first.now → ReadsKeyList (Some bytes) rest second.now →
        Agree first.now second.now }
{}
