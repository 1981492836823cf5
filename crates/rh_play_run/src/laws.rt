//! The law of plays whose steps are told. It does nothing when it runs.

ghost use Rattle.std.specs.Prelude.{◌≡◌, ◌++◌, List, ℕ};
ghost use Rattle.rh_play_text.specs.declared.play.Play.{Play};
ghost use Rattle.rh_play_run.specs.Pieces.{LogEntry, told};
ghost use Rattle.rh_play_run.specs.Run.{IsPlayed};
ghost use Rattle.rh_play_run.specs.declared.log.Telling.TheVariants.{Orders, Steps};

/// What tells the steps of a play is, without the lines of its steps, what the play prints.
pub fn steps_stand_between()
    ensures { (play : Play) (text : List ℕ) → IsPlayed Steps play text →
        (pieces : List LogEntry) × (ending : List ℕ) × (text ≡ told Steps 0 pieces ++ ending)
        × IsPlayed Orders play (told Orders 0 pieces ++ ending) }
{}
