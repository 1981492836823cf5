//! How an element looks, by the class that the style sheet knows.

ghost use Rattle.std.specs.Prelude.{◌≡◌};
ghost use Rattle.rh_svg.specs.Looks.{colour, look_word, tint};

/// How many colours the workers have in turn.
pub(crate) const COLOURS: u64 = 16;

/// How an element looks. Those with a worker have its colour.
#[derive(Clone, Copy)]
pub enum Look {
    /// The background.
    Ground,
    /// What the play is.
    Title,
    /// The number of a step.
    Number,
    /// The head of a lane, a column or the legend.
    Head,
    Lane(u64),
    /// The line from a step to the lane of the worker whose descriptor it is about.
    Help(u64),
    /// The moment of an act.
    Act,
    /// The moment of another decision.
    Decision,
    /// The moment at which a mark is settled to a descriptor that is over.
    Late,
    /// The moment at which a further round begins.
    Round,
    /// What such a moment says.
    Saying,
    /// An empty cell, a key, a mark, a descriptor, and a word that is none of these.
    Empty,
    Key,
    Mark(u64),
    Desc(u64),
    Odd,
    /// The word in a cell.
    Word,
    /// The value that a cell stands for.
    Value,
}

impl Look {
    pub(crate) fn word(self) -> &'static str
        ensures { result.now ≡ look_word self }
    {
        match self {
            Look::Ground => "ground",
            Look::Title => "title",
            Look::Number => "number",
            Look::Head => "head",
            Look::Lane(_) => "lane",
            Look::Help(_) => "help",
            Look::Act => "act",
            Look::Decision => "decision",
            Look::Late => "late",
            Look::Round => "round",
            Look::Saying => "saying",
            Look::Empty => "empty",
            Look::Key => "key",
            Look::Mark(_) => "mark",
            Look::Desc(_) => "desc",
            Look::Odd => "odd",
            Look::Word => "word",
            Look::Value => "value",
        }
    }

    /// The class of its colour, or nothing.
    pub(crate) fn tint(self) -> &'static str
        ensures { result.now ≡ tint self }
    {
        match self {
            Look::Lane(worker) | Look::Help(worker) | Look::Mark(worker) | Look::Desc(worker) => {
                colour(worker)
            }
            _ => "",
        }
    }
}

fn colour(worker: u64) -> &'static str
    ensures { result.now ≡ colour worker }
{
    match worker % COLOURS {
        0 => " w0",
        1 => " w1",
        2 => " w2",
        3 => " w3",
        4 => " w4",
        5 => " w5",
        6 => " w6",
        7 => " w7",
        8 => " w8",
        9 => " w9",
        10 => " w10",
        11 => " w11",
        12 => " w12",
        13 => " w13",
        14 => " w14",
        _ => " w15",
    }
}
