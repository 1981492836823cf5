//! Which keys of a list are chosen.

ghost use Rattle.std.specs.Prelude.{◌≡◌, ◌≤◌, length, take};
ghost use Rattle.rh_layout.specs.Layout.{Keys};
ghost use Rattle.rh_ledger.specs.Phase.{looked_up};
ghost use Rattle.rh_runner.specs.Lists.{chosen, is_chosen};

/// Which keys of a list are chosen: those that a set holds, or the others.
#[derive(Clone, Copy)]
pub enum Chosen {
    Present,
    Absent,
}

impl Chosen {
    /// Whether a key is chosen that is held, or is not.
    pub fn takes(self, held: bool) -> bool
        ensures { result ≡ is_chosen self held }
    {
        match self {
            Chosen::Present => held,
            Chosen::Absent => !held,
        }
    }
}

/// Moves the chosen keys to the front, by what was found of each, and answers how many they are.
pub fn choose(which: Chosen, found: &[bool], keys: &mut [u64]) -> usize
    requires { length found.now ≡ length keys.old }
    ensures few { result ≤ length keys.new }
    ensures moved { (S : Keys) → found.now ≡ looked_up S keys.old →
        take result keys.new ≡ chosen which S keys.old }
{
    let mut n = 0;
    for (i, there) in found.iter().enumerate() {
        if which.takes(*there) {
            keys[n] = keys[i];
            n += 1;
        }
    }
    n
}
