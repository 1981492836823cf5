//! Which numbers of lists are wanted, by the lists in which each stands: in at least so many of
//! them, or in those of which an expression is true.
//!
//! `rhkeys` stands on it.
//!
//! ```text
//! let most = Wanted::Selected(Selection::AtLeast(2));
//! most.ask(alloc, &[&[1, 9], &[9, 9, 4], &[4, 17]])?    // 4, 9
//! write_answer(&team, &most, Form::Lines, lists, &mut writer, &mut progress)?
//! let counts = compare(alloc, &[&[1, 9], &[9, 9, 4]])?  // [0, 1, 1, 1]: none; 1; 4; 9
//! let counts = compare_lists(&team, lists, &mut progress)?
//! ranked(alloc, &counts)?                               // the most first
//! ```
//!
//! A number has a row: for each list whether it stands there. What is wanted is told by rows. The
//! numbers of each list are sorted, each once, and the lists are merged two by two, with the lists
//! of each number as the bits of a word: so there may be 64 lists. No table is needed for that, and
//! no kind of numbers is hard on it.
//!
//! Proved:
//!
//! - `Selection` is a `Question`: `ask` answers the rising list of those numbers of the lists whose
//!   row is wanted (`specs/Selections.antt`). So lists may be cut into parts, and by several
//!   workers the same is written as by one. `Wanted` is that, or what is made of lists as
//!   `Intersect` makes it, so that one question stands for all that `rhkeys` is asked.
//! - `compare`, and by several workers `compare_lists`: how many numbers stand in each combination
//!   of up to 16 lists. `tallies_join`: the counts of two ranges add up to those of both.
//!   `tallies_add_up`: those of all combinations add up to how many numbers stand in any list.
//! - `ranked`: the combinations that occur, each once, those of the most numbers first.
//!   `one_ranking`: in no other order.
//! - `members`: a number is in what is wanted exactly where it stands in one of the lists and its
//!   row is wanted.
//! - `made_by_rows`: what is made of lists, as `Intersect`, is told by rows too.
#![tactic(auto)]

mod asking;
mod comparing;
mod counting;
mod laws;
mod limits;
mod ranking;
mod rows;
mod selection;
mod value;
mod wanted;

pub use comparing::compare;
pub use counting::compare_lists;
pub use laws::{made_by_rows, members, one_ranking, tallies_add_up, tallies_join};
pub use limits::{MOST_COMPARED, MOST_LISTS};
pub use ranking::{Combination, ranked};
pub use selection::Selection;
pub use wanted::Wanted;
