//! A law of the arguments, as a function that does nothing.

ghost use Rattle.std.specs.Prelude.{◌≡◌};
ghost use Rattle.rh_arguments.specs.declared.limits.TheConstants.{MAX_SKIP};

/// The most lines of a text that are passed by.
pub fn fixed_numbers()
    ensures { MAX_SKIP ≡ 1000000000 }
{}
