//! A law of the command line, as a function that does nothing.

ghost use Rattle.std.specs.Prelude.{◌≡◌};
ghost use Rattle.rh_pack_commands.specs.declared.limits.TheConstants.{MAX_PARTS};

/// The most parts of a list.
pub fn fixed_numbers()
    ensures { MAX_PARTS ≡ 1000 }
{}
