//! A law of pictures, as a function that does nothing.

ghost use Rattle.std.specs.Prelude.{◌≡◌};
ghost use Rattle.rh_svg.specs.declared.looks.TheConstants.{COLOURS};

/// As many colours as a play may have workers.
pub fn fixed_numbers()
    ensures { COLOURS ≡ 16 }
{}
