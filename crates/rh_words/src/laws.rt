//! Laws of places. They do nothing when they run.

ghost use Rattle.std.specs.Prelude.{◌≡◌};
ghost use Rattle.rh_words.specs.declared.limits.TheConstants.{HEAD_WORDS, MARK_WORDS};
ghost use Rattle.rh_words.specs.declared.limits.TheConstants.{MAX_ROOM, MAX_WORKERS};
ghost use Rattle.rh_words.specs.declared.limits.TheConstants.{WORDS_PER_ENTRY};
ghost use Rattle.rh_words.specs.declared.shape.Part.{Part};
ghost use Rattle.rh_words.specs.Parts.{IsPart, index_of};

use crate::shape::Shape;

/// No two parts of a table stand in one word.
pub fn one_part(shape: &Shape)
    ensures { (p q : Part) → IsPart shape.now p → IsPart shape.now q →
        index_of shape.now p ≡ index_of shape.now q → p ≡ q }
{
    let _ = shape;
}

/// The limits of a shared table, and of how many words its rows are made.
pub fn fixed_numbers()
    ensures limits { (MAX_WORKERS ≡ 16) × (MAX_ROOM ≡ 72057594037927935) }
    ensures rows { (HEAD_WORDS ≡ 3) × (WORDS_PER_ENTRY ≡ 3) × (MARK_WORDS ≡ 3) }
{}
