//! Homes, distances, and which of two keys keeps a cell that both want.

ghost use Rattle.std.specs.Prelude.{◌≡◌, ◌^◌, ◌<◌, ◌↔◌, IsTrue};
ghost use Rattle.rh_layout.specs.Key.{IsBits};
ghost use Rattle.rh_layout.specs.Order.{home_of, dist_of, Beats};

// 2 ^ 64 divided by the golden ratio, odd: Fibonacci hashing.
const MULTIPLIER: u64 = 11400714819323198485;

/// The cell where the search for a key begins.
#[tactic(auto, using(crate::proofs::HomeLemmas::is_cell), unfolding(crate::specs::Order::home_of))]
pub fn home(bits: u32, key: u64) -> usize
    requires { IsBits bits }
    ensures value { result ≡ home_of bits key }
    ensures in_table { result < 2 ^ bits }
{
    (key.wrapping_mul(MULTIPLIER) >> (64 - bits)) as usize
}

/// How many steps lead from the home of a key round to the cell.
#[tactic(auto, using(crate::proofs::RoundLemmas::steps_ahead))]
pub fn dist(bits: u32, cell: usize, key: u64) -> usize
    requires bits { IsBits bits }
    requires cell { cell < 2 ^ bits }
    ensures value { result ≡ dist_of bits cell key }
    ensures in_table { result < 2 ^ bits }
{
    let home = home(bits, key);
    if home <= cell {
        cell - home
    } else {
        let size = 1usize << bits;
        cell + size - home
    }
}

/// Whether key `a` keeps the cell against key `b`: the one farther from its home does (Celis 1986),
/// and of two as far the smaller one.
pub fn beats(bits: u32, cell: usize, a: u64, b: u64) -> bool
    requires bits { IsBits bits }
    requires cell { cell < 2 ^ bits }
    ensures { IsTrue result ↔ Beats bits cell a b }
{
    let of_a = dist(bits, cell, a);
    let of_b = dist(bits, cell, b);
    of_a > of_b || (of_a == of_b && a < b)
}
