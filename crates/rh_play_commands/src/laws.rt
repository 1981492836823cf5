//! A law of the command line, as a function that does nothing.

ghost use Rattle.std.specs.Prelude.{◌≡◌};
ghost use Rattle.rh_play_commands.specs.declared.limits.TheConstants.{MAX_DRAWN, MAX_FROM};

/// The most steps that are drawn, and the greatest number of the first one.
pub fn fixed_numbers()
    ensures { (MAX_DRAWN ≡ 2000) × (MAX_FROM ≡ 9223372036854775807) }
{}
