//! Files that another program made, run through the public calls, and a file of two segments whose acceptance is proved.
#![tactic(auto)]

pub mod laws;
#[cfg(test)]
mod tests;
