//! Laws of what comes of lists. They do nothing when they run.

ghost use Rattle.std.specs.Prelude.{◌≡◌, ◌≤◌, ◌++◌, ℕ, List, map};
ghost use Rattle.std.specs.FinSet.{contains};
ghost use Rattle.std.specs.List.Sorted.{IsStrictlyIncreasing};
ghost use Rattle.rh_layout.specs.Range.{within};
ghost use Rattle.rh_combine.specs.Combine.{AllWithin, answer, has, meant, stands_by};
ghost use Rattle.rh_combine.specs.declared.how.How.{How as Made};

/// Which numbers come of lists: the rising list of those that stand in each list, in one list or
/// more, in the first and no other one, or in an odd number of lists.
pub fn members()
    ensures held { (how : Made) (lists : List (List ℕ)) (k : ℕ) →
        contains (meant how lists) k ≡ stands_by how lists k }
    ensures listed { (how : Made) (lists : List (List ℕ)) (k : ℕ) →
        has (answer how lists) k ≡ stands_by how lists k }
    ensures rising { (how : Made) (lists : List (List ℕ)) →
        IsStrictlyIncreasing (answer how lists) }
{}

/// What comes of the lists' numbers of a range are those numbers of that range that come of the
/// lists.
pub fn range_of_lists(from: u64, to: u64)
    ensures { (how : Made) (lists : List (List ℕ)) →
        answer how (map (within from to) lists) ≡ within from to (answer how lists) }
{
    let _ = (from, to);
}

/// The numbers of two ranges, one after the other, are those of both.
pub fn ranges_join(from: u64, middle: u64, to: u64)
    requires first { from ≤ middle }
    requires second { middle ≤ to }
    ensures { (how : Made) (lists : List (List ℕ)) →
        within from to (answer how lists)
        ≡ within from middle (answer how lists) ++ within middle to (answer how lists) }
{
    let _ = (from, middle, to);
}

/// The numbers of a range that has all numbers of the lists are all that come of them.
pub fn all_in_range(from: u64, to: u64)
    ensures { (how : Made) (lists : List (List ℕ)) → AllWithin from to lists →
        within from to (answer how lists) ≡ answer how lists }
{
    let _ = (from, to);
}
