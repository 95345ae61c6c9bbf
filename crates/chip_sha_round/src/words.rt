//! The words of a row.

ghost use Rattle.air_core.specs.Ring.{field, cells};
ghost use Rattle.std.specs.Prelude.{◌≡◌, ◌≤◌, ◌+◌, length, slice_index};
ghost use Rattle.chip_sha_round.specs.Round.{round_row, before_of, after_of, a_words, e_words, w_words};
ghost use Rattle.chip_sha_round.specs.Words.{words_of};

use gadget_bits::{Halves, big_sigma, choice, half_sums, majority, small_sigma, word_of};
use vm_field::Fe;

/// The words that a row has as bits, and the functions of them that the round takes.
#[derive(Clone, Copy, Debug)]
pub struct Words {
    a: Halves,
    b: Halves,
    c: Halves,
    e: Halves,
    f: Halves,
    g: Halves,
    w1: Halves,
    w14: Halves,
    big_sigma0: Halves,
    big_sigma1: Halves,
    choice: Halves,
    majority: Halves,
    small_sigma0: Halves,
    small_sigma1: Halves,
}

/// The bits of a word, by the place of the first.
fn bits(row: &[Fe], at: usize) -> &[Fe]
    requires { at + 32 ≤ length row.now }
    ensures long { length result.now ≡ 32 }
    ensures are { result.now ≡ cells (slice_index row.now) at 32 }
{
    &row[at..at + 32]
}

/// The words of a row and their functions.
#[tactic(auto, unfolding(crate::specs::Words::words_of, crate::specs::Round::round_row))]
pub fn read(row: &[Fe]) -> Words
    requires { length row.now ≡ 299 }
    ensures { result ≡ words_of (round_row (slice_index row.now)) }
{
    let (a, b, c) = (bits(row, 5), bits(row, 37), bits(row, 69));
    let (e, f, g) = (bits(row, 101), bits(row, 133), bits(row, 165));
    let (w1, w14) = (bits(row, 197), bits(row, 229));
    let (known_a, known_b, known_c) = (word_of(a), word_of(b), word_of(c));
    let (known_e, known_f, known_g) = (word_of(e), word_of(f), word_of(g));
    let (known_w1, known_w14) = (word_of(w1), word_of(w14));
    Words {
        a: half_sums(a, known_a),
        b: half_sums(b, known_b),
        c: half_sums(c, known_c),
        e: half_sums(e, known_e),
        f: half_sums(f, known_f),
        g: half_sums(g, known_g),
        w1: half_sums(w1, known_w1),
        w14: half_sums(w14, known_w14),
        big_sigma0: big_sigma(2, 13, 22, a, known_a),
        big_sigma1: big_sigma(6, 11, 25, e, known_e),
        choice: choice(e, f, g, known_e, known_f, known_g),
        majority: majority(a, b, c, known_a, known_b, known_c),
        small_sigma0: small_sigma(7, 18, 3, w1, known_w1),
        small_sigma1: small_sigma(17, 19, 10, w14, known_w14),
    }
}

/// The words of the stage before the round.
#[tactic(auto, unfolding(crate::specs::Words::words_of, crate::specs::Round::before_of, crate::specs::Round::round_row))]
pub fn before(row: &[Fe], w: &Words) -> [Halves; 24]
    requires wide { length row.now ≡ 299 }
    requires words { w.now ≡ words_of (round_row (slice_index row.now)) }
    ensures { result ≡ before_of field (round_row (slice_index row.now)) }
{
    [
        w.a,
        w.b,
        w.c,
        Halves::read(row, 261),
        w.e,
        w.f,
        w.g,
        Halves::read(row, 263),
        Halves::read(row, 265),
        w.w1,
        Halves::read(row, 267),
        Halves::read(row, 269),
        Halves::read(row, 271),
        Halves::read(row, 273),
        Halves::read(row, 275),
        Halves::read(row, 277),
        Halves::read(row, 279),
        Halves::read(row, 281),
        Halves::read(row, 283),
        Halves::read(row, 285),
        Halves::read(row, 287),
        Halves::read(row, 289),
        w.w14,
        Halves::read(row, 291),
    ]
}

/// The words of the stage after it.
#[tactic(auto, unfolding(crate::specs::Words::words_of, crate::specs::Round::after_of, crate::specs::Round::round_row))]
pub fn after(row: &[Fe], w: &Words) -> [Halves; 24]
    requires wide { length row.now ≡ 299 }
    requires words { w.now ≡ words_of (round_row (slice_index row.now)) }
    ensures { result ≡ after_of field (round_row (slice_index row.now)) }
{
    [
        Halves::read(row, 293),
        w.a,
        w.b,
        w.c,
        Halves::read(row, 295),
        w.e,
        w.f,
        w.g,
        w.w1,
        Halves::read(row, 267),
        Halves::read(row, 269),
        Halves::read(row, 271),
        Halves::read(row, 273),
        Halves::read(row, 275),
        Halves::read(row, 277),
        Halves::read(row, 279),
        Halves::read(row, 281),
        Halves::read(row, 283),
        Halves::read(row, 285),
        Halves::read(row, 287),
        Halves::read(row, 289),
        w.w14,
        Halves::read(row, 291),
        Halves::read(row, 297),
    ]
}

/// What adds up to the new a.
#[tactic(auto, unfolding(crate::specs::Words::words_of, crate::specs::Round::a_words, crate::specs::Round::round_row))]
pub fn a_words(row: &[Fe], w: &Words) -> [Halves; 7]
    requires wide { length row.now ≡ 299 }
    requires words { w.now ≡ words_of (round_row (slice_index row.now)) }
    ensures { result ≡ a_words field (round_row (slice_index row.now)) }
{
    [
        Halves::read(row, 263),
        w.big_sigma1,
        w.choice,
        Halves::read(row, 3),
        Halves::read(row, 265),
        w.big_sigma0,
        w.majority,
    ]
}

/// What adds up to the new e.
#[tactic(auto, unfolding(crate::specs::Words::words_of, crate::specs::Round::e_words, crate::specs::Round::round_row))]
pub fn e_words(row: &[Fe], w: &Words) -> [Halves; 6]
    requires wide { length row.now ≡ 299 }
    requires words { w.now ≡ words_of (round_row (slice_index row.now)) }
    ensures { result ≡ e_words field (round_row (slice_index row.now)) }
{
    [
        Halves::read(row, 261),
        Halves::read(row, 263),
        w.big_sigma1,
        w.choice,
        Halves::read(row, 3),
        Halves::read(row, 265),
    ]
}

/// What adds up to the next word of the schedule.
#[tactic(auto, unfolding(crate::specs::Words::words_of, crate::specs::Round::w_words, crate::specs::Round::round_row))]
pub fn w_words(row: &[Fe], w: &Words) -> [Halves; 4]
    requires wide { length row.now ≡ 299 }
    requires words { w.now ≡ words_of (round_row (slice_index row.now)) }
    ensures { result ≡ w_words field (round_row (slice_index row.now)) }
{
    [
        w.small_sigma1,
        Halves::read(row, 281),
        w.small_sigma0,
        Halves::read(row, 265),
    ]
}
