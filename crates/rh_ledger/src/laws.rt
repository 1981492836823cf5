//! The law of phases. It does nothing when it runs.

ghost use Rattle.std.specs.Prelude.{◌≡◌, ◌++◌};
ghost use Rattle.rh_layout.specs.Layout.{Keys};
ghost use Rattle.rh_ledger.specs.Tally.{sum_of};
ghost use Rattle.rh_ledger.specs.Phase.{set_after, tally_of, looked_up};

use crate::tally::Kind;

/// A phase over a list is the phases over its parts, one after the other, with their tallies
/// joined.
pub fn phase_in_parts(kind: Kind, first: &[u64], rest: &[u64])
    ensures set { (S : Keys) → set_after kind S (first.now ++ rest.now)
        ≡ set_after kind (set_after kind S first.now) rest.now }
    ensures tally { (S : Keys) → tally_of kind S (first.now ++ rest.now)
        ≡ sum_of (tally_of kind S first.now) (tally_of kind (set_after kind S first.now) rest.now) }
    ensures look_ups { (S : Keys) → looked_up S (first.now ++ rest.now)
        ≡ looked_up S first.now ++ looked_up S rest.now }
{
    let _ = kind;
    let _ = first;
    let _ = rest;
}
