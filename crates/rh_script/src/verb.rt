//! The first words of the commands.

ghost use Rattle.std.specs.Prelude.{◌≡◌};
ghost use Rattle.rh_script.specs.Grammar.{verb_of};

use crate::action::Action;

/// The commands without their words.
#[derive(Clone, Copy)]
pub(crate) enum Verb {
    Use,
    Act(Action),
    Save,
    Clear,
    Dump,
    Snapshot,
    Restore,
}

impl Verb {
    #[tactic(auto, unfolding(crate::specs::Grammar::verb_of))]
    pub(crate) fn from_word(word: &str) -> Option<Verb>
        ensures { result ≡ verb_of word.now }
    {
        match word {
            "use" => Some(Verb::Use),
            "add" => Some(Verb::Act(Action::Add)),
            "drop" => Some(Verb::Act(Action::Drop)),
            "ask" => Some(Verb::Act(Action::Ask)),
            "keep" => Some(Verb::Act(Action::Keep)),
            "flip" => Some(Verb::Act(Action::Flip)),
            "save" => Some(Verb::Save),
            "clear" => Some(Verb::Clear),
            "dump" => Some(Verb::Dump),
            "snapshot" => Some(Verb::Snapshot),
            "restore" => Some(Verb::Restore),
            _ => None,
        }
    }
}
