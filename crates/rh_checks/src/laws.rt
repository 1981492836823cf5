//! The laws of checks, as functions that do nothing.

ghost use Rattle.std.specs.Prelude.{◌≡◌, ℕ, List, [], ◌∷◌, None, Some};
ghost use Rattle.rh_numbers.specs.Grammar.{IsOneLine};
ghost use Rattle.rh_numbers.specs.Reading.{lines_said, text_said};
ghost use Rattle.rh_checks.specs.Lines.{Bad, bad_lines, good_numbers, line_said};
ghost use Rattle.rh_checks.specs.declared.limits.TheConstants.{SHOWN_LINES};

/// A text has no bad line exactly where the other commands take it, and then they read its numbers.
/// Else its first bad line is the fault that they tell. What a line says by itself is what they
/// read of that line alone.
pub fn same_first_fault(text: &[u8])
    ensures good { bad_lines text.now ≡ [] → text_said text.now ≡ (good_numbers text.now, None) }
    ensures taken { (keys : List ℕ) → text_said text.now ≡ (keys, None) → bad_lines text.now ≡ [] }
    ensures bad { (bad : Bad) (others : List Bad) → bad_lines text.now ≡ bad ∷ others →
        (keys : List ℕ) × (text_said text.now ≡ (keys, Some bad.0)) }
    ensures alone { IsOneLine text.now → lines_said text.now ≡ line_said 1 text.now }
{}

/// So many bad lines are shown.
pub fn fixed_numbers()
    ensures { SHOWN_LINES ≡ 20 }
{}
