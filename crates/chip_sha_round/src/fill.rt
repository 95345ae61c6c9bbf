//! The row of a round of a record.

ghost use Rattle.std.specs.Prelude.{◌≡◌, ◌≤◌, ◌<◌, ◌+◌, ◌++◌, ◌∷◌, [], length, take};
ghost use Rattle.vm_field.specs.Field.{modulus};
ghost use Rattle.sha_words.specs.Sha256.{round_constant};
ghost use Rattle.chip_sha_round.specs.Sheet.{round_filled, row_of_round, round_at};
ghost use Rattle.chip_sha_round.specs.Filled.{head_filled, tail_filled};

use air_core::element;
use gadget_bits::{Halves, bits_of, block, halves_of, put_halves, rounds_to, state};
use gadget_limbs::put;
use sha_words::{ROUND_CONSTANTS, round, schedule};
use vm_field::Fe;
use vm_isa::StepRecord;

#[tactic(auto, unfolding(sha_words::specs::Sha256::round_constant))]
fn constant(t: usize) -> u32
    requires { t < 64 }
    ensures { result ≡ round_constant t }
{
    ROUND_CONSTANTS[t]
}

/// The columns before the bits.
#[tactic(auto, unfolding(gadget_bits::specs::Bits::halves_filled))]
fn head(time: u32, t: usize) -> [Fe; 5]
    requires low { t < 64 }
    requires time_low { time < modulus }
    ensures { result ≡ head_filled time t }
{
    let k = halves_of(constant(t));
    [Fe::ONE, element(time), Fe::of_u16(t as u16), k.lo, k.hi]
}

/// The words behind the bits.
#[tactic(auto, unfolding(crate::specs::Filled::tail_filled))]
fn tail(t: usize, state: &[u32; 8], words: &[u32; 80]) -> [Halves; 19]
    requires { t < 64 }
    ensures { result ≡ tail_filled t state.now words.now }
{
    let next = round(*state, constant(t), words[t]);
    [
        halves_of(state[3]),
        halves_of(state[7]),
        halves_of(words[t]),
        halves_of(words[t + 2]),
        halves_of(words[t + 3]),
        halves_of(words[t + 4]),
        halves_of(words[t + 5]),
        halves_of(words[t + 6]),
        halves_of(words[t + 7]),
        halves_of(words[t + 8]),
        halves_of(words[t + 9]),
        halves_of(words[t + 10]),
        halves_of(words[t + 11]),
        halves_of(words[t + 12]),
        halves_of(words[t + 13]),
        halves_of(words[t + 15]),
        halves_of(next[0]),
        halves_of(next[4]),
        halves_of(words[t + 16]),
    ]
}

/// Writes the row of round `t` of the working variables and the words of a schedule.
fn fill_columns(time: u32, t: usize, state: &[u32; 8], words: &[u32; 80], row: &mut [Fe])
    requires low { t < 64 }
    requires time_low { time < modulus }
    requires wide { length row.old ≡ 299 }
    ensures { row.new ≡ row_of_round (round_filled time t state.now words.now) }
{
    put(row, 0, &head(time, t));
    put(row, 5, &bits_of(state[0]));
    put(row, 37, &bits_of(state[1]));
    put(row, 69, &bits_of(state[2]));
    put(row, 101, &bits_of(state[4]));
    put(row, 133, &bits_of(state[5]));
    put(row, 165, &bits_of(state[6]));
    put(row, 197, &bits_of(words[t + 1]));
    put(row, 229, &bits_of(words[t + 14]));
    put_halves(row, 261, &tail(t, state, words));
}

/// Writes the row of one round of a record of a SHA block.
pub fn fill_round(done: &StepRecord, place: usize, row: &mut [Fe])
    requires long { length done.now.accesses ≡ 26 }
    requires low { place < 64 }
    requires time_low { done.now.time < modulus }
    requires wide { length row.old ≡ 299 }
    ensures { row.new ≡ round_at done.now place }
{
    let words = schedule(&block(done));
    let working = rounds_to(state(done), &words, place);
    fill_columns(done.time, place, &working, &words, row);
}
