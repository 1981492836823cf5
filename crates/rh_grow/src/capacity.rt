//! The size of a table for the keys that it is to hold.

ghost use Rattle.std.specs.Prelude.{◌+◌, ◌≤◌, ◌↔◌, IfSome, IsSome, IsNone, IsTrue};
ghost use Rattle.rh_grow.specs.Growth.{Fits, IsCapacity};
ghost use Rattle.rh_layout.specs.Key.{IsBits};
ghost use Rattle.rh_layout.specs.declared.limits.TheConstants.{MAX_BITS};

use rh_layout::MAX_BITS;

/// Growing leaves at most `LOAD_NUMERATOR` keys for each `LOAD_DENOMINATOR` of its cells.
pub const LOAD_NUMERATOR: u64 = 3;

/// The cells that `LOAD_NUMERATOR` keys may fill.
pub const LOAD_DENOMINATOR: u64 = 4;

/// The bits that a table of `bits` bits and `held` keys needs to take `more` keys: the fewest that
/// do, and none fewer than it has. `more` counts each key as often as it is given.
pub fn bits_for(bits: u32, held: u64, more: u64) -> Option<u32>
    requires { IsBits bits }
    ensures capacity { IfSome result (IsCapacity bits (held + more)) }
    ensures some { IsSome result ↔ Fits MAX_BITS (held + more) }
    ensures none { IsNone result ↔ ¬ Fits MAX_BITS (held + more) }
{
    for size in bits..=MAX_BITS {
        if fits(size, held, more) {
            return Some(size);
        }
    }
    None
}

fn fits(bits: u32, held: u64, more: u64) -> bool
    requires { bits ≤ MAX_BITS }
    ensures { IsTrue result ↔ Fits bits (held + more) }
{
    // No sum of two u64, and no such sum times the denominator, is too large for a u128.
    let keys = u128::from(held) + u128::from(more);
    u128::from(LOAD_DENOMINATOR) * keys <= u128::from(LOAD_NUMERATOR) << bits
}
