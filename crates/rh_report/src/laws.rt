//! Laws of reports. They do nothing when they run.

ghost use Rattle.std.specs.Prelude.{◌≡◌};
ghost use Rattle.rh_report.specs.declared.answers.TheConstants.{ANSWERS_PER_LINE};

/// A line of answers has so many of them, but for the last.
pub fn fixed_numbers()
    ensures { ANSWERS_PER_LINE ≡ 64 }
{}
