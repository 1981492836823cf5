//! Tallies.

use rh_ledger::{Kind, Tally};

pub fn joined(a: Tally, b: Tally) -> Option<Tally> {
    rh_ledger::joined(a, b)
}

pub fn phase_in_parts(kind: Kind, first: &[u64], rest: &[u64]) {
    rh_ledger::phase_in_parts(kind, first, rest);
}

pub fn variants(kind: Kind) {
    match kind {
        Kind::Insert | Kind::Remove | Kind::Ask => {}
    }
}

pub fn fields(read: u64, added: u64, removed: u64, found: u64) -> Tally {
    Tally {
        read,
        added,
        removed,
        found,
    }
}
