//! A law of the command line, as a function that does nothing.

ghost use Rattle.std.specs.Prelude.{◌≡◌};
ghost use Rattle.rh_commands.specs.declared.limits.TheConstants.{MAX_WORKERS};

/// The most workers of a script.
pub fn fixed_numbers()
    ensures { MAX_WORKERS ≡ 16 }
{}
