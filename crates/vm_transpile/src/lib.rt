//! The program of an image: a row for each text word that is an instruction.
#![tactic(auto)]

pub mod laws;
mod operation;
mod program;
mod row;
#[cfg(test)]
mod tests;
mod text;

pub use program::Program;
pub use std::alloc::AllocError as OutOfMemory;
pub use text::transpile;
