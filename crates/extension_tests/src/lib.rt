//! What stands on any lawful extension, proved of no chip by name, and an extension that needs its private bus.
#![tactic(auto)]

mod check;
mod pair;
#[cfg(test)]
mod tests;

pub use check::{check_tables, hand_rows};
pub use pair::Pair;
