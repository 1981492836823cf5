//! Compare-and-swap of several cells of a table that threads share (Harris, Fraser and Pratt 2002),
//! and the reading of a cell.
//!
//! `rh_threads` stands on it. `rh_kcas` hands it on to programs of others, beside the tables and
//! what only these call.
//!
//! Proved:
//!
//! - `kcas`: `Done` exactly where the worker's own acts grew by these entries, in one act. On
//!   `Failed` and `Spent` they are as before.
//! - `Failed` names one of the entries: a descriptor of just these entries, opened in this call, is
//!   noted as failed there. `Spent` comes only where no number was left for a descriptor, or none
//!   is left for a mark. A call that opened a descriptor took one number. Where neither was left
//!   when it was called, the seat is as it was: no step was made.
//! - `read`: a plain word that is kept as read of this cell, after all reads before, with the
//!   number of the worker's next descriptor. None is answered only where no mark is left.
//! - After each of these the worker is at rest, and its own acts are the same but for a K-CAS that
//!   is done.
//! - `open`, `carry_out`: the two parts of a K-CAS, for who does something between.
//!
//! No contract says that a call which takes a `Wait` returns: `kcas`, `carry_out` and `read`.
#![tactic(auto)]

mod reading;
mod swapping;

pub use reading::read;
pub use swapping::{Outcome, carry_out, kcas, open};
