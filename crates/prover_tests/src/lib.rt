//! Segments that are filled, beside numbers that were put down by hand.
#![tactic(auto)]

#[cfg(test)]
mod each_instruction;
#[cfg(test)]
mod one_addition;
pub mod records;
