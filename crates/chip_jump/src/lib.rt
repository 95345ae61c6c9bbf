//! JAL and LUI, AUIPC, and JALR: a register gets a return address, an immediate or a sum with the pc.
#![tactic(auto)]

mod columns;
mod cores;
mod form;
pub mod laws;
mod own;
#[cfg(test)]
mod tests;

pub use columns::{LinkColumns, Ranged};
pub use cores::{AuipcCore, JalLuiCore, JalrCore};
pub use form::{LinkChip, LinkForm};
pub use own::LinkCore;

/// The table of JAL and LUI, whose times have HI bits above the lower 16.
pub type JalLuiAt<const HI: u32> = LinkChip<JalLuiCore, HI>;

/// The same with times of 24 bits.
pub type JalLui = JalLuiAt<8>;

/// The table of AUIPC, whose times have HI bits above the lower 16.
pub type AuipcAt<const HI: u32> = LinkChip<AuipcCore, HI>;

/// The same with times of 24 bits.
pub type Auipc = AuipcAt<8>;

/// The table of JALR, whose times have HI bits above the lower 16.
pub type JalrAt<const HI: u32> = LinkChip<JalrCore, HI>;

/// The same with times of 24 bits.
pub type Jalr = JalrAt<8>;
