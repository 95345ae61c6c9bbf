//! Rows of the tables of loads, stores, hints and reveal, by hand: what they say, and what a changed cell breaks.
#![tactic(auto)]

#[cfg(test)]
mod rows;
#[cfg(test)]
mod steps;
#[cfg(test)]
mod tests;
