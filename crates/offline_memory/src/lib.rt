//! One sequential memory, from the events of the memory bus.
#![tactic(auto)]

mod boundary;
pub mod laws;
#[cfg(test)]
mod tests;

pub use boundary::boundary_events;
pub use vm_trace::{Digest, OutOfMemory, Touched};
