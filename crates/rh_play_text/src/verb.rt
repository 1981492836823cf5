//! The words that lines begin with, and those that name kinds.

ghost use Rattle.std.specs.Prelude.{◌≡◌};
ghost use Rattle.rh_play_text.specs.Grammar.{kind_of, step_of, verb_of};

use rh_ledger::Kind;
use rh_words::StepKind;

/// The lines without their words.
#[derive(Clone, Copy)]
pub(crate) enum Verb {
    Play,
    Bits,
    Held,
    Rooms,
    Work,
    Share,
    Turn,
    Until,
    Rest,
    Round,
    Show,
}

impl Verb {
    #[tactic(auto, unfolding(crate::specs::Grammar::verb_of))]
    pub(crate) fn from_word(word: &str) -> Option<Verb>
        ensures { result ≡ verb_of word.now }
    {
        match word {
            "play" => Some(Verb::Play),
            "bits" => Some(Verb::Bits),
            "held" => Some(Verb::Held),
            "rooms" => Some(Verb::Rooms),
            "work" => Some(Verb::Work),
            "share" => Some(Verb::Share),
            "turn" => Some(Verb::Turn),
            "until" => Some(Verb::Until),
            "rest" => Some(Verb::Rest),
            "round" => Some(Verb::Round),
            "show" => Some(Verb::Show),
            _ => None,
        }
    }
}

#[tactic(auto, unfolding(crate::specs::Grammar::kind_of))]
pub(crate) fn kind_from_word(word: &str) -> Option<Kind>
    ensures { result ≡ kind_of word.now }
{
    match word {
        "insert" => Some(Kind::Insert),
        "remove" => Some(Kind::Remove),
        "ask" => Some(Kind::Ask),
        _ => None,
    }
}

#[tactic(auto, unfolding(crate::specs::Grammar::step_of))]
pub(crate) fn step_from_word(word: &str) -> Option<StepKind>
    ensures { result ≡ step_of word.now }
{
    match word {
        "write" => Some(StepKind::Write),
        "open" => Some(StepKind::Open),
        "read" => Some(StepKind::Read),
        "place" => Some(StepKind::Place),
        "settle" => Some(StepKind::Settle),
        "decide" => Some(StepKind::Decide),
        "release" => Some(StepKind::Release),
        "claim" => Some(StepKind::Claim),
        _ => None,
    }
}
