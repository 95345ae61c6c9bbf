//! What a row of an instruction table says: its path, and its accesses, each after the block's access
//! before it.
#![tactic(auto)]

mod access;
mod chip;
mod emission;
mod form;
pub mod laws;
mod nop;
#[cfg(test)]
mod tests;
mod touch;

pub use access::{access_at, block_touch, gap_at, gap_of, register_read, register_touch};
pub use chip::{FormChip, set_flag};
pub use emission::{emit_touch, emit_touches, touches_broken};
pub use form::TableForm;
pub use nop::{Nop, NopAt, NopForm};
pub use touch::{Gap, Touch, gap_between, touch_constraint};
