//! What comes of lists of numbers: what all of them have, what one or another has, what only the
//! first has, or what an odd number of them has.
//!
//! `rh_combine_workers` stands on it, for lists that several workers share.
//!
//! ```text
//! combine(alloc, How::Intersect, &[&[1, 9], &[9, 9, 4]])?    // 9
//! combine(alloc, How::Union, &[&[1, 9], &[9, 9, 4]])?        // 1, 4, 9
//! combine(alloc, How::Subtract, &[&[1, 9], &[9, 9, 4]])?     // 1
//! combine(alloc, How::Xor, &[&[1, 9], &[9, 9, 4]])?          // 1, 4
//! ```
//!
//! Lists of more than some 24,000 numbers are cut into ranges, and these again, until the numbers
//! of a range fit one small table. What a list is met by is no larger than the list asks for, so
//! the bytes of all tables of a range grow as its numbers do, whatever the number of lists.
//!
//! Proved:
//!
//! - `combine`: the rising list of what the lists mean by sets: intersection, union, difference,
//!   or what is in one set and not in both, list after list.
//! - `members`: a number is in it exactly where it stands in each list, in one or more, in the
//!   first and no other one, or in an odd number of them; and the list rises.
//! - `range_of_lists`: what comes of the lists' numbers of a range are those numbers of the range
//!   that come of the lists. `ranges_join`: two ranges, one after the other, give both.
//!   `all_in_range`: a range that has all numbers gives all. So lists may be cut at any borders,
//!   and each range worked out by itself.
#![tactic(auto)]

mod crowds;
mod cut;
mod form;
mod how;
mod laws;
mod ranges;
mod table;

pub use form::Form;
pub use how::How;
pub use laws::{all_in_range, members, range_of_lists, ranges_join};
pub use ranges::combine;
