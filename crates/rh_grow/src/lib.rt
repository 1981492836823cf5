//! When a table grows, and to what size.
//!
//! `rh_combine`, `rh_runner`, `rh_operations` and `rh_commands` stand on it.
//!
//! ```text
//! bits_for(3, 0, 7)                            // Some(4): 7 keys do not fit 8 cells
//! let cells = grow(alloc, 3, set.cells(), 4)?; // the same set in 16 cells
//! ```
//!
//! Proved:
//!
//! - `bits_for`: the least bits that keep the table at most three quarters full; `None` exactly
//!   where 18 do not.
//! - `grow`: the layout of the same set in a larger table.
//! - `fixed_numbers`: three keys for each four cells.
#![tactic(auto)]

mod capacity;
mod growing;
mod laws;

pub use capacity::{LOAD_DENOMINATOR, LOAD_NUMERATOR, bits_for};
pub use growing::grow;
pub use laws::fixed_numbers;
