//! The branches: on whether two words are the same, and on which is below the other.
#![tactic(auto)]

mod condition;
mod conditions;
mod form;
pub mod laws;
#[cfg(test)]
mod tests;

pub use condition::Condition;
pub use conditions::{EqualCondition, OrderCondition};
pub use form::{BranchChip, BranchForm};

/// The table of BEQ and BNE, whose times have HI bits above the lower 16.
pub type BranchEqAt<const HI: u32> = BranchChip<EqualCondition, HI>;

/// The same with times of 24 bits.
pub type BranchEq = BranchEqAt<8>;

/// The table of BLT, BLTU, BGE and BGEU, whose times have HI bits above the lower 16.
pub type BranchLtAt<const HI: u32> = BranchChip<OrderCondition, HI>;

/// The same with times of 24 bits.
pub type BranchLt = BranchLtAt<8>;
