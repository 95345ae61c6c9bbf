//! Words shifted by an amount in columns: one of eight flags and one of four make it, and the bits that cross from
//! limb to limb have columns of their own.
#![tactic(auto)]

mod columns;
mod constraints;
mod fill;
pub mod laws;
mod lookups;

pub use columns::Columns;
pub use constraints::{amount_broken, left_constraints, right_constraints};
pub use fill::fill_shift;
pub use lookups::emit_shift;
