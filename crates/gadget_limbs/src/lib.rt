//! Sums, signs and the order of numbers by their limbs, and the lookup of a result limb by limb.
#![tactic(auto)]

mod cells;
pub mod laws;
mod less;
mod lookup;
mod negative;
mod order;
mod ranges;
mod sign;
mod sum;
#[cfg(test)]
mod tests;

pub use cells::put;
pub use less::{less_broken, less_ranges};
pub use lookup::{OperationFlags, choose, emit_lookups, looked_up};
pub use negative::negative_broken;
pub use order::fill_less;
pub use ranges::emit_ranges;
pub use sign::{sign_constraints, sign_looked_up};
pub use sum::first_broken;
