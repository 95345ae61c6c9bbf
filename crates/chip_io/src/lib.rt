//! The tables of HINT, of REVEAL and of the no-operation: words that the host gives, words that are made public, and
//! steps that do nothing.
#![tactic(auto)]

mod hint;
pub mod laws;
mod reveal;

use adapter_mem::MemoryChip;
pub use gadget_time::{Nop, NopAt, NopForm};
pub use hint::HintCore;
pub use reveal::RevealCore;

/// The table of HINT, whose times have HI bits above the lower 16.
pub type HintAt<const HI: u32> = MemoryChip<HintCore, HI>;

/// The same with times of 24 bits.
pub type Hint = HintAt<8>;

/// The table of REVEAL, whose times have HI bits above the lower 16.
pub type RevealAt<const HI: u32> = MemoryChip<RevealCore, HI>;

/// The same with times of 24 bits.
pub type RevealChip = RevealAt<8>;
