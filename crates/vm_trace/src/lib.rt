//! What a run's tables say, as a value: segments with the rows of each table, the counts of the rows of fixed
//! tables and the pages of memory, and the claim of what the run came to.
#![tactic(auto)]

mod count;
mod page;
mod tables;
#[cfg(test)]
mod tests;

pub use count::{CountEntry, CountList, RANGE_ROWS, SHA_ROWS, XOR_ROWS};
pub use page::{Digest, MEMORY_LABEL, PUBLIC_LABEL, REGISTER_LABEL, SPACE_PAGES, Touched};
pub use std::alloc::AllocError as OutOfMemory;
pub use tables::Tables;
