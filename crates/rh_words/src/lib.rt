//! Where descriptors and marks stand in a table that several workers share, and the steps of one
//! worker on its words.
//!
//! A step is a value (`Request`): which word it touches, and what becomes of it. `rh_rule` says
//! that each allowed one keeps the rule, and `rh_carrier` who carries it out.
//!
//! `rh_descriptor` hands it on to programs of others, with a call for each kind of step.
//!
//! Proved:
//!
//! - `Shape::cells`, `words` and `index`: how many cells and words a table has, and in which word
//!   each part stands, exactly. `one_part`: no two parts stand in one word.
//! - `Request::index`, `Request::effect`, `Side::note`: of a step, on the condition of its kind,
//!   which word it touches, what becomes of it, and what is kept of the worker after it, exactly.
//! - `make_step`: one such step on a slice of words, and the word that it found.
//! - `Side::new`, `Side::begin_round`: what is kept of a worker when a table is made, and in a new
//!   round.
//! - `fixed_numbers`: the limits of a table and the words of a row, each by its value.
//!
//! What is kept of a worker exists for contracts alone. No clause by itself ties it to a run of the
//! program; the rule does.
#![tactic(auto)]

mod known;
mod laws;
mod limits;
mod reference;
mod shape;
mod side;
mod steps;
mod words;

pub use known::{First, Known};
pub use laws::{fixed_numbers, one_part};
pub use limits::{MAX_ROOM, MAX_WORKERS};
pub use reference::{Piece, Reading, Ref};
pub use rh_layout::Entry;
pub use shape::{Part, Rooms, Shape};
pub use side::Side;
pub use steps::{Effect, Request, StepKind, make_step};
pub use words::{decided_word, desc_word, mark_word};
