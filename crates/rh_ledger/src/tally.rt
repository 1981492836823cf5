//! Kinds of phase, and what is counted in one.

ghost use Rattle.std.specs.Prelude.{◌≡◌, ◌↔◌, IsSome, IfSome};
ghost use Rattle.rh_ledger.specs.Tally.{sum_of, tally_by, FitsTally};

/// What a phase does with each key of its list.
#[derive(Clone, Copy, Debug, PartialEq, Eq)]
pub enum Kind {
    Insert,
    Remove,
    Ask,
}

/// How many keys a phase took, and what came of them. What the kind does not name is 0.
#[derive(Clone, Copy, Debug, PartialEq, Eq)]
pub struct Tally {
    /// The keys of the list, repeats counted.
    pub read: u64,
    /// Those that were not there and are now.
    pub added: u64,
    /// Those that were there and are no more.
    pub removed: u64,
    /// Those that were asked for and are there.
    pub found: u64,
}

/// The tally of no key.
pub const NONE_YET: Tally = Tally {
    read: 0,
    added: 0,
    removed: 0,
    found: 0,
};

/// The tallies of two phases, one after the other. `None` where a sum is too large.
pub fn joined(a: Tally, b: Tally) -> Option<Tally>
    ensures fits { IsSome result ↔ FitsTally (sum_of a b) }
    ensures sums { IfSome result (λ t. t ≡ sum_of a b) }
{
    Some(Tally {
        read: a.read.checked_add(b.read)?,
        added: a.added.checked_add(b.added)?,
        removed: a.removed.checked_add(b.removed)?,
        found: a.found.checked_add(b.found)?,
    })
}

/// Of keys so many of which a phase of this kind took, so many changed the set or were found.
pub fn tally_by(kind: Kind, read: u64, changed: u64) -> Tally
    ensures { result ≡ tally_by kind read changed }
{
    let counted = Tally { read, ..NONE_YET };
    match kind {
        Kind::Insert => Tally {
            added: changed,
            ..counted
        },
        Kind::Remove => Tally {
            removed: changed,
            ..counted
        },
        Kind::Ask => Tally {
            found: changed,
            ..counted
        },
    }
}
