//! Laws of pictures. They do nothing when they run.

ghost use Rattle.std.specs.Prelude.{◌≡◌, ◌<◌, ◌*◌};
ghost use Rattle.rh_draw.specs.declared.limits.TheConstants.{BAND, HEAD_STEPS, LANE};
ghost use Rattle.rh_draw.specs.declared.limits.TheConstants.{MAX_STEPS, ROW, TEXT};

/// The most steps of a picture, and after how many its heads stand again. No two lanes stand at one
/// place, and no two moments: a word and a value have room between them, and where heads stand
/// again, a head above them.
pub fn fixed_numbers()
    ensures steps { MAX_STEPS ≡ 2000 }
    ensures heads { HEAD_STEPS ≡ 40 }
    ensures lanes { 0 < LANE }
    ensures moments { 2 * TEXT < ROW }
    ensures again { 3 * TEXT < BAND }
{}
