//! Tests of SHA blocks in tables: rows that are filled from a record, and rows that were changed.
#![tactic(auto)]

#[cfg(test)]
mod tests;
