//! Divisions of words, signed or not, beside the product of divisor and quotient: signs, distances from 0, and the
//! order of remainder and divisor.
#![tactic(auto)]

mod columns;
mod constraints;
mod fill;
pub mod laws;
mod lookups;

pub use columns::Divided;
pub use constraints::{operands_broken, results_broken};
pub use fill::fill_divided;
pub use lookups::emit_divided;
