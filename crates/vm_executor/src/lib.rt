//! The virtual machine, step by step, with a record of each step.
#![tactic(auto)]

mod block;
pub mod laws;
mod machine;
mod memory;
mod page;
mod read;
mod write;

pub use machine::{Machine, Machined};
pub use std::alloc::AllocError as OutOfMemory;
pub use vm_isa::StepRecord;
pub use vm_trace::Touched;
