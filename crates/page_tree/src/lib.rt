//! The Merkle tree over pages of memory: its root, the opening of some of its pages, and the path of the
//! page of public bytes.
#![tactic(auto)]

mod hash;
pub mod laws;
mod node;
mod opening;
mod path;
mod start;
mod subtree;
#[cfg(test)]
mod tests;
mod tree;

pub use opening::{OpeningError, roots_of, sibling_count};
pub use path::path_root;
pub use tree::Tree;
pub use vm_trace::{Digest, OutOfMemory, PUBLIC_LABEL, Touched};
