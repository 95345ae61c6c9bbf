//! Products of numbers by their limbs, and the carries from limb to limb.
#![tactic(auto)]

mod carry;
mod divide;
pub mod laws;
mod multiply;
mod product;
#[cfg(test)]
mod tests;

pub use carry::{carries, emit_carries};
pub use divide::Division;
pub use multiply::{both, product_carries, word_of};
pub use product::{place, places};
