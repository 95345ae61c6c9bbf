//! The table of one round of SHA-256.
#![tactic(auto)]

mod chip;
mod events;
mod fill;
pub mod laws;
mod words;

pub use chip::{ShaRound, ShaRoundAt};
pub use fill::fill_round;
