//! The instructions of the machine as program rows, what one step of it touches, and what an
//! instruction means.
#![tactic(auto)]

mod access;
mod accesses;
mod instr;
pub mod laws;
mod meaning;
pub mod opcode;
mod record;
mod results;
pub mod space;
#[cfg(test)]
mod tests;
mod writes;

pub use access::{Access, TimedAccess};
pub use accesses::{AccessList, MAX_ACCESSES};
pub use instr::VmInstr;
pub use meaning::{NextAccess, next_access, next_pc};
pub use opcode::slots;
pub use record::StepRecord;
pub use results::result;
pub use std::alloc::AllocError as OutOfMemory;
pub use writes::new_word;
