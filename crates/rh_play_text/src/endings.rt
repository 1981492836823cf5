//! What lines end with.

ghost use Rattle.std.specs.Prelude.{◌≡◌, Some};
ghost use Rattle.rh_play_text.specs.Grammar.{step_of};
ghost use Rattle.rh_play_text.specs.Words.{kind_word, last_word, rest_word};

use rh_words::StepKind;

/// What the last turn of a line came to.
#[derive(Clone, Copy, Debug, PartialEq, Eq)]
pub enum Last {
    /// It made a step of this kind.
    Did(StepKind),
    /// All keys of the worker are done.
    Finished,
    /// The rows of the worker do not suffice until the next round.
    Spent,
    /// There is no such worker.
    NoWorker,
    /// It made a step, and no more turns are allowed.
    Limit,
}

/// How a rest ended.
#[derive(Clone, Copy, Debug, PartialEq, Eq)]
pub enum Rest {
    /// All workers are finished.
    Finished,
    /// None can make a step, and some are spent.
    Spent,
    /// No more turns are allowed.
    Limit,
}

impl Last {
    pub(crate) fn word(self) -> &'static str
        ensures { result.now ≡ last_word self }
    {
        match self {
            Last::Did(kind) => kind_word(kind),
            Last::Finished => "finished",
            Last::Spent => "spent",
            Last::NoWorker => "none",
            Last::Limit => "limit",
        }
    }
}

impl Rest {
    pub(crate) fn word(self) -> &'static str
        ensures { result.now ≡ rest_word self }
    {
        match self {
            Rest::Finished => "finished",
            Rest::Spent => "spent",
            Rest::Limit => "limit",
        }
    }
}

/// The word of a kind of step, which a schedule reads as that kind again.
#[tactic(auto, unfolding(crate::specs::Grammar::step_of))]
pub fn kind_word(kind: StepKind) -> &'static str
    ensures word { result.now ≡ kind_word kind }
    ensures read_back { step_of result.now ≡ Some kind }
{
    match kind {
        StepKind::Write => "write",
        StepKind::Open => "open",
        StepKind::Read => "read",
        StepKind::Place => "place",
        StepKind::Settle => "settle",
        StepKind::Decide => "decide",
        StepKind::Release => "release",
        StepKind::Claim => "claim",
    }
}
