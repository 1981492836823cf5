//! What is the same in each picture: the style sheet, the outlines, the legend.

ghost use Rattle.std.specs.Prelude.{◌≡◌, false};
ghost use Rattle.rh_draw.specs.Reading.{is_head};

use rh_play_text::kind_word;
use rh_svg::{Look, Tag};
use rh_words::StepKind;

/// The style sheet. The colours of the kinds and of the first seven workers are those of Okabe and
/// Ito, which most colour-blind readers can tell apart.
pub(crate) const STYLE: &str =
    "svg{font:10px sans-serif}text{fill:#222}use{stroke:#222;stroke-width:1}\
.ground{fill:#fff}.number{fill:#666}.title{font-weight:bold}\
.head{font-weight:bold;font-size:9px;text-anchor:middle;stroke:#fff;stroke-width:3px;\
paint-order:stroke}\
.w0{fill:#e69f00;stroke:#e69f00}.w1{fill:#56b4e9;stroke:#56b4e9}.w2{fill:#009e73;stroke:#009e73}\
.w3{fill:#cc79a7;stroke:#cc79a7}.w4{fill:#0072b2;stroke:#0072b2}.w5{fill:#d55e00;stroke:#d55e00}\
.w6{fill:#b8a800;stroke:#b8a800}.w7{fill:#6a3d9a;stroke:#6a3d9a}.w8{fill:#8c5a2b;stroke:#8c5a2b}\
.w9{fill:#00b3b3;stroke:#00b3b3}.w10{fill:#7cc242;stroke:#7cc242}.w11{fill:#a3195b;stroke:#a3195b}\
.w12{fill:#2b3a8f;stroke:#2b3a8f}.w13{fill:#ff8f80;stroke:#ff8f80}.w14{fill:#5f6b1e;stroke:#5f6b1e}\
.w15{fill:#444;stroke:#444}\
.lane{stroke-width:5;stroke-opacity:.35}.help{stroke-width:3}\
.act{stroke:#000;stroke-width:2.5}.decision{stroke:#000;stroke-width:1.5;stroke-dasharray:2 4}\
.late{stroke:#c00;stroke-width:2;stroke-dasharray:10 4}.round{stroke:#666}.saying{fill:#000}\
.empty{fill:#fff;stroke:#ccc}.key{fill:#eee;stroke:#999}.odd{fill:#fcc;stroke:#c00}\
.mark{fill-opacity:.2;stroke-dasharray:4 3;stroke-width:2}.desc{fill-opacity:.55;stroke-width:2}\
.value{font-style:italic}\
use.write{fill:#fff}use.open{fill:#009e73}use.read{fill:#bbb}use.place{fill:#56b4e9}\
use.settle{fill:#0072b2}use.decide{fill:#d55e00}use.release{fill:#e69f00}use.claim{fill:#cc79a7}";

/// The outlines of the kinds.
pub(crate) const OUTLINES: &[Tag] = &[
    Tag::Outline(StepKind::Write),
    Tag::Outline(StepKind::Open),
    Tag::Outline(StepKind::Read),
    Tag::Outline(StepKind::Place),
    Tag::Outline(StepKind::Settle),
    Tag::Outline(StepKind::Decide),
    Tag::Outline(StepKind::Release),
    Tag::Outline(StepKind::Claim),
];

/// What the legend says beside a sign.
#[derive(Clone, Copy)]
pub(crate) enum Says {
    Kind(StepKind),
    Help,
    Mark,
    Desc,
    Empty,
    Key,
    Act,
    Decision,
    Late,
    Round,
    Number,
    Step,
    Italic,
    Value,
}

/// Where it says it.
#[derive(Clone, Copy)]
pub(crate) struct Caption {
    pub(crate) x: u64,
    pub(crate) y: u64,
    pub(crate) says: Says,
}

impl Says {
    /// No head.
    pub(crate) fn look(self) -> Look
        ensures { is_head result ≡ false }
    {
        match self {
            Says::Number => Look::Number,
            Says::Italic => Look::Value,
            _ => Look::Word,
        }
    }

    pub(crate) fn text(self) -> &'static str {
        match self {
            Says::Kind(kind) => kind_word(kind),
            Says::Help => "about the descriptor of that worker",
            Says::Mark => "mark W N: the mark N of worker W",
            Says::Desc => "desc W N: the descriptor N of worker W",
            Says::Empty => "an empty cell",
            Says::Key => "a key",
            Says::Act => "act: the descriptor succeeds",
            Says::Decision => "it is withdrawn, or failed W: so W saw",
            Says::Late => "late promotion of a mark",
            Says::Round => "a further round begins",
            Says::Number => "12",
            Says::Step => "the number of a step",
            Says::Italic => "italic",
            Says::Value => "what the cell stands for",
        }
    }
}

/// The signs of the legend.
pub(crate) const SIGNS: &[Tag] = &[
    Tag::Mark {
        x: 18,
        y: 40,
        kind: StepKind::Write,
    },
    Tag::Mark {
        x: 112,
        y: 40,
        kind: StepKind::Open,
    },
    Tag::Mark {
        x: 206,
        y: 40,
        kind: StepKind::Read,
    },
    Tag::Mark {
        x: 300,
        y: 40,
        kind: StepKind::Place,
    },
    Tag::Mark {
        x: 18,
        y: 62,
        kind: StepKind::Settle,
    },
    Tag::Mark {
        x: 112,
        y: 62,
        kind: StepKind::Decide,
    },
    Tag::Mark {
        x: 206,
        y: 62,
        kind: StepKind::Release,
    },
    Tag::Mark {
        x: 300,
        y: 62,
        kind: StepKind::Claim,
    },
    Tag::Line {
        x: 12,
        y: 84,
        to_x: 42,
        to_y: 84,
        look: Look::Help(0),
    },
    Tag::Dot {
        x: 42,
        y: 84,
        look: Look::Help(0),
    },
    Tag::Box {
        x: 12,
        y: 96,
        width: 30,
        height: 12,
        look: Look::Mark(0),
    },
    Tag::Box {
        x: 12,
        y: 114,
        width: 30,
        height: 12,
        look: Look::Desc(0),
    },
    Tag::Box {
        x: 12,
        y: 132,
        width: 30,
        height: 12,
        look: Look::Empty,
    },
    Tag::Box {
        x: 12,
        y: 150,
        width: 30,
        height: 12,
        look: Look::Key,
    },
    Tag::Line {
        x: 310,
        y: 84,
        to_x: 340,
        to_y: 84,
        look: Look::Act,
    },
    Tag::Line {
        x: 310,
        y: 102,
        to_x: 340,
        to_y: 102,
        look: Look::Decision,
    },
    Tag::Line {
        x: 310,
        y: 120,
        to_x: 340,
        to_y: 120,
        look: Look::Late,
    },
    Tag::Line {
        x: 310,
        y: 138,
        to_x: 340,
        to_y: 138,
        look: Look::Round,
    },
];

/// What the legend says of them.
pub(crate) const CAPTIONS: &[Caption] = &[
    Caption {
        x: 32,
        y: 44,
        says: Says::Kind(StepKind::Write),
    },
    Caption {
        x: 126,
        y: 44,
        says: Says::Kind(StepKind::Open),
    },
    Caption {
        x: 220,
        y: 44,
        says: Says::Kind(StepKind::Read),
    },
    Caption {
        x: 314,
        y: 44,
        says: Says::Kind(StepKind::Place),
    },
    Caption {
        x: 32,
        y: 66,
        says: Says::Kind(StepKind::Settle),
    },
    Caption {
        x: 126,
        y: 66,
        says: Says::Kind(StepKind::Decide),
    },
    Caption {
        x: 220,
        y: 66,
        says: Says::Kind(StepKind::Release),
    },
    Caption {
        x: 314,
        y: 66,
        says: Says::Kind(StepKind::Claim),
    },
    Caption {
        x: 52,
        y: 88,
        says: Says::Help,
    },
    Caption {
        x: 52,
        y: 106,
        says: Says::Mark,
    },
    Caption {
        x: 52,
        y: 124,
        says: Says::Desc,
    },
    Caption {
        x: 52,
        y: 142,
        says: Says::Empty,
    },
    Caption {
        x: 52,
        y: 160,
        says: Says::Key,
    },
    Caption {
        x: 348,
        y: 88,
        says: Says::Act,
    },
    Caption {
        x: 348,
        y: 106,
        says: Says::Decision,
    },
    Caption {
        x: 348,
        y: 124,
        says: Says::Late,
    },
    Caption {
        x: 348,
        y: 142,
        says: Says::Round,
    },
    Caption {
        x: 310,
        y: 160,
        says: Says::Number,
    },
    Caption {
        x: 348,
        y: 160,
        says: Says::Step,
    },
    Caption {
        x: 12,
        y: 178,
        says: Says::Italic,
    },
    Caption {
        x: 52,
        y: 178,
        says: Says::Value,
    },
];
