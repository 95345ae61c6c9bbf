//! The single path of the execution bus.
#![tactic(auto)]

pub mod laws;
mod order;
#[cfg(test)]
mod tests;

pub use order::{PathRow, order_rows};
pub use std::alloc::AllocError as OutOfMemory;
