//! A law of the command line, as a function that does nothing.

ghost use Rattle.std.specs.Prelude.{◌≡◌};
ghost use Rattle.rh_key_commands.specs.declared.limits.TheConstants.{MAX_WORKERS};

/// The most workers on lists.
pub fn fixed_numbers()
    ensures { MAX_WORKERS ≡ 64 }
{}
