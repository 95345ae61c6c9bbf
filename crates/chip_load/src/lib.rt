//! The table of LB, LH, LW, LBU and LHU.
#![tactic(auto)]

pub mod laws;
mod load;

use adapter_mem::MemoryChip;
pub use load::LoadCore;

/// The table of loads, whose times have HI bits above the lower 16.
pub type LoadAt<const HI: u32> = MemoryChip<LoadCore, HI>;

/// The table with times of 24 bits.
pub type LoadChip = LoadAt<8>;
