//! When a file of tables is accepted, and that an accepted file states a run of the machine.
#![tactic(auto)]

pub mod laws;
