//! Laws of growth. They do nothing when they run.

ghost use Rattle.std.specs.Prelude.{◌≡◌};
ghost use Rattle.rh_grow.specs.declared.capacity.TheConstants.{LOAD_NUMERATOR, LOAD_DENOMINATOR};

/// A table takes three keys for each four of its cells.
pub fn fixed_numbers()
    ensures keys { LOAD_NUMERATOR ≡ 3 }
    ensures cells { LOAD_DENOMINATOR ≡ 4 }
{}
