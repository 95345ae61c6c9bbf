//! The machine with records beside the manual's machine, and its records and pages beside tables.
#![tactic(auto)]

#[cfg(test)]
mod records;
#[cfg(test)]
mod sample;
#[cfg(test)]
mod shown;
#[cfg(test)]
mod side_by_side;
