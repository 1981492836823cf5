//! What is made of the parts of lists is the part of what is made of the lists, however a key is
//! told its part.
//!
//! No program stands on it, and it stands on no parts: a part is a test of keys here, and
//! `stands_in` of `rh_parts` is such a test.
//!
//! Proved:
//!
//! - `parts_agree`: for every list of commands, the keys that are held, the lists that were saved
//!   and the keys of the snapshots are, cut to a part, what the same commands make of the part: of
//!   the keys held at first, of the lists given and saved, and of what stands in files. No list is
//!   too long here.
//! - `scripts_agree`: the meaning of a script is that of its commands. So a run over a part of each
//!   list that is carried out to its end holds, saves and puts into snapshots the part of what the
//!   commands make of the whole lists.
//! - `answers_agree`: what `rhkeys intersect`, `union`, `subtract` and `xor` make of the parts of
//!   lists is the part of what they make of the lists.
//!
//! What a script writes of a part, such as how many keys were added, no law here tells.
#![tactic(auto)]

mod laws;

pub use laws::{answers_agree, parts_agree, scripts_agree};
