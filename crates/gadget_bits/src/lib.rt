//! Words of a row as bit columns and as halves: the functions of SHA-256 on bits, and sums of words.
#![tactic(auto)]

mod bits;
mod halves;
pub mod laws;
mod record;
mod stage;
mod sum;

pub use bits::{big_sigma, bits_of, choice, half_sums, majority, small_sigma, word_of};
pub use halves::{Halves, halves_of, put_halves};
pub use record::{block, old_word, rounds_to, state};
pub use stage::stage_tuple;
pub use sum::{emit_sum, half_carry};
