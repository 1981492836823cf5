//! Laws of scripts. They do nothing when they run.

ghost use Rattle.std.specs.Prelude.{◌≡◌};
ghost use Rattle.rh_script.specs.declared.limits.TheConstants.{MAX_LINES, MAX_LINE_BYTES};
ghost use Rattle.rh_script.specs.declared.limits.TheConstants.{MAX_NAME_BYTES};

/// The limits of a script.
pub fn fixed_numbers()
    ensures lines { MAX_LINES ≡ 10000 }
    ensures line { MAX_LINE_BYTES ≡ 1024 }
    ensures name { MAX_NAME_BYTES ≡ 16 }
{}
