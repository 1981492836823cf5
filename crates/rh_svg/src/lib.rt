//! The elements of which pictures of plays are made, and their text.
//!
//! `rh_draw` stands on it. A tag is a kind of element with its places, and no list of attributes.
//!
//! Proved:
//!
//! - `open`, `close`: the text grew by exactly the start tag or the end tag, or, where memory was
//!   refused, it is as it was. The two have one name, and a start tag has no two attributes of one
//!   name.
//! - `leaf`, `put_text`: where memory is there, the text grew by exactly that of an element that
//!   holds nothing, or this text. In a text each `<`, `>` and `&` stands as a reference, and what
//!   is no printable character as a `?`.
//! - `fixed_numbers`: there are as many colours as a play may have workers.
#![tactic(auto)]

mod laws;
mod looks;
mod markup;
mod outlines;
mod tags;

pub use laws::fixed_numbers;
pub use looks::Look;
pub use markup::{leaf, put_text};
pub use tags::{Tag, close, open};
