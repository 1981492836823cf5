//! Laws of layouts. They do nothing when they run.

ghost use Rattle.std.specs.Prelude.{◌≡◌, ◌+◌, ◌^◌, ◌<◌, count_by};
ghost use Rattle.std.specs.FinSet as set;
ghost use Rattle.rh_layout.specs.Key.{is_full};
ghost use Rattle.rh_layout.specs.declared.limits.TheConstants.{MAX_KEY, MAX_KEYS, MIN_BITS, MAX_BITS};
ghost use Rattle.rh_layout.specs.declared.order.TheConstants.{MULTIPLIER};
ghost use Rattle.rh_layout.specs.Layout.{Keys, Layout, IsLayout, HasFree, HasTwoFree, keys_of};

/// Two layouts of one set, one of them with a free cell, are equal.
pub fn one_layout(bits: u32, first: &[u64], second: &[u64])
    ensures { (S : Keys) → Layout first.now bits S → Layout second.now bits S →
        HasFree first.now → first.now ≡ second.now }
{
    let _ = bits;
    let _ = first;
    let _ = second;
}

/// Layouts of one number of bits are equal where they hold the same keys and one of them has a free
/// cell.
pub fn cells_agree(bits: u32, first: &[u64], second: &[u64])
    ensures { IsLayout bits first.now → IsLayout bits second.now → HasFree first.now →
        keys_of first.now ≡ keys_of second.now → first.now ≡ second.now }
{
    let _ = bits;
    let _ = first;
    let _ = second;
}

/// A layout of a set has as many full cells as the set has keys. So fewer keys than cells leave a
/// cell free, and fewer by two leave two.
pub fn has_free(bits: u32, cells: &[u64])
    ensures full { (S : Keys) → Layout cells.now bits S →
        count_by is_full cells.now ≡ set.len S }
    ensures one { (S : Keys) → Layout cells.now bits S →
        set.len S < 2 ^ bits → HasFree cells.now }
    ensures two { (S : Keys) → Layout cells.now bits S →
        set.len S + 1 < 2 ^ bits → HasTwoFree cells.now }
{
    let _ = bits;
    let _ = cells;
}

/// The numbers that the formats fix. The multiplier is 2^64 over the golden ratio, rounded down.
pub fn fixed_numbers()
    ensures keys { MAX_KEY ≡ 4611686018427387902 }
    ensures list { MAX_KEYS ≡ 1000000 }
    ensures bits { (MIN_BITS ≡ 3) × (MAX_BITS ≡ 18) }
    ensures multiplier { MULTIPLIER ≡ 11400714819323198485 }
{}
