//! The table of SB, SH and SW.
#![tactic(auto)]

pub mod laws;
mod store;

use adapter_mem::MemoryChip;
pub use store::StoreCore;

/// The table of stores, whose times have HI bits above the lower 16.
pub type StoreAt<const HI: u32> = MemoryChip<StoreCore, HI>;

/// The table with times of 24 bits.
pub type StoreChip = StoreAt<8>;
