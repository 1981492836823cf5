//! Laws of the text of a play. They do nothing when they run.

ghost use Rattle.std.specs.Prelude.{◌≡◌};
ghost use Rattle.rh_play_text.specs.declared.limits.TheConstants.{MAX_DIGITS, MAX_TEXT_BYTES};
ghost use Rattle.rh_play_text.specs.declared.limits.TheConstants.{MIN_BITS, MAX_BITS, MAX_PLAY_ROOM, MAX_TURNS};

/// The limits of a play's text, and of the numbers in it.
pub fn fixed_numbers()
    ensures text { (MAX_TEXT_BYTES ≡ 1048576) × (MAX_DIGITS ≡ 20) }
    ensures bits { (MIN_BITS ≡ 3) × (MAX_BITS ≡ 18) }
    ensures room { MAX_PLAY_ROOM ≡ 100000 }
    ensures turns { MAX_TURNS ≡ 1000000 }
{}
