//! What is answered of lists of numbers, by several workers: what all lists have, what one or
//! another has, what only the first has, what an odd number of them has, or what another `Question`
//! asks for.
//!
//! `rh_checks` and `rh_list_commands` stand on it, and `rh_questions`, which counts by parts.
//!
//! ```text
//! write_answer(&team, &How::Intersect, Form::Lines, lists, &mut writer, &mut progress)?
//! ```
//!
//! A list comes in pieces, as they were read. The lists are cut into parts at borders
//! (`rh_cutting`), and the question is asked of each part by itself: what is made of lists (`How`)
//! is worked out by `rh_combine`. Groups of consecutive parts are worked out side by side, and
//! written in their order.
//!
//! Proved:
//!
//! - `write_answer`: the numbers that are the answer, as they rise, were written in their form, or,
//!   on a fault, a front of them. The number of workers and the pieces stand nowhere in it.
//!   It answers how many numbers they are. `Write` comes only where the writer's count of failures
//!   rose, and else that did not rise.
//! - `workers_agree`: two such runs that end well wrote the same.
//! - `lists_of_part`: the keys of each list that stand in a part, for who asks what is no `Question`.
#![tactic(auto)]

mod fault;
mod form;
mod group;
mod laws;
mod part;
mod question;
mod writing;

pub use fault::CombineFault;
pub use laws::workers_agree;
pub use part::{lists_of_part, slices_of};
pub use question::Question;
pub use rh_combine::{Form, How};
pub use writing::write_answer;
