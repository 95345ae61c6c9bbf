//! Bits of words, and functions of them. Where each column is 0 or 1, a function of bits is computed on the word
//! that they make, and as the polynomial that it is of the columns only where one is not.

ghost use Rattle.air_core.specs.Ring.{field};
ghost use Rattle.std.specs.Prelude.{◌≡◌, ◌≤◌, ◌<◌, ◌+◌, length, slice_index};
ghost use Rattle.gadget_bits.specs.Bits.{number_by, shifted, halves_by, word_if_bits, xor_of, xor3_of, choice_of, majority_of, big_sigma_bits, small_sigma_bits, choice_bits, majority_bits, bits_filled};

use crate::halves::{Halves, halves_of};
use vm_field::Fe;

/// The word of 32 columns, the lowest bit first, if each of them is 0 or 1.
#[tactic(auto, unfolding(crate::specs::Bits::word_if_bits))]
pub fn word_of(bits: &[Fe]) -> Option<u32>
    requires { length bits.now ≡ 32 }
    ensures { result ≡ word_if_bits bits.now }
{
    let mut word: u64 = 0;
    for i in 0..32 {
        let bit = bits[i].value();
        if bit > 1 {
            return None;
        }
        word += (bit as u64) << i;
    }
    Some(word as u32)
}

/// The number that 16 bits from a place on make, the lowest first.
#[tactic(auto, unfolding(crate::specs::Bits::number_by))]
fn number(bits: &[Fe], from: usize) -> Fe
    requires { from + 16 ≤ length bits.now }
    ensures { result ≡ number_by field (λ i. slice_index bits.now (i + from)) 16 }
{
    let mut sum = Fe::ZERO;
    for i in 0..16 {
        let weight = Fe::of_u16(1 << i);
        sum = sum.add(weight.mul(bits[i + from]));
    }
    sum
}

/// The halves of 32 columns, whatever they are.
#[tactic(auto, unfolding(crate::specs::Bits::halves_by))]
fn sums(bits: &[Fe]) -> Halves
    requires { length bits.now ≡ 32 }
    ensures { result ≡ halves_by field bits.now }
{
    Halves {
        lo: number(bits, 0),
        hi: number(bits, 16),
    }
}

/// The halves of 32 bits, whose word is `word`, if they are bits.
pub fn half_sums(bits: &[Fe], word: Option<u32>) -> Halves
    requires long { length bits.now ≡ 32 }
    requires known { word ≡ word_if_bits bits.now }
    ensures { result ≡ halves_by field bits.now }
{
    match word {
        Some(word) => halves_of(word),
        None => sums(bits),
    }
}

fn xor(x: Fe, y: Fe) -> Fe
    ensures { result ≡ xor_of field x y }
{
    x.add(y).sub(Fe::of_u16(2).mul(x.mul(y)))
}

#[tactic(auto, unfolding(crate::specs::Bits::xor3_of))]
fn xor3(x: Fe, y: Fe, z: Fe) -> Fe
    ensures { result ≡ xor3_of field x y z }
{
    xor(xor(x, y), z)
}

#[tactic(auto, unfolding(crate::specs::Bits::choice_of))]
fn choice_bit(x: Fe, y: Fe, z: Fe) -> Fe
    ensures { result ≡ choice_of field x y z }
{
    z.add(x.mul(y.sub(z)))
}

#[tactic(auto, unfolding(crate::specs::Bits::majority_of))]
fn majority_bit(x: Fe, y: Fe, z: Fe) -> Fe
    ensures { result ≡ majority_of field x y z }
{
    let pairs = x.mul(y).add(x.mul(z)).add(y.mul(z));
    pairs.sub(Fe::of_u16(2).mul(x.mul(y).mul(z)))
}

/// The columns of three rotations joined by xor.
fn big_sigma_columns(j: usize, k: usize, l: usize, bits: &[Fe]) -> [Fe; 32]
    requires long { length bits.now ≡ 32 }
    requires low { (j < 32) × (k < 32) × (l < 32) }
    ensures { result ≡ big_sigma_bits field j k l bits.now }
{
    let mut all = [Fe::ZERO; 32];
    for i in 0..32 {
        all[i] = xor3(bits[(i + j) % 32], bits[(i + k) % 32], bits[(i + l) % 32]);
    }
    all
}

/// Bit `i` of a word shifted right.
fn shifted(bits: &[Fe], by: usize, i: usize) -> Fe
    requires long { length bits.now ≡ 32 }
    requires low { (by < 32) × (i < 32) }
    ensures { result ≡ shifted field bits.now by i }
{
    if i + by < 32 { bits[i + by] } else { Fe::ZERO }
}

/// The columns of two rotations and a shift joined by xor.
fn small_sigma_columns(j: usize, k: usize, l: usize, bits: &[Fe]) -> [Fe; 32]
    requires long { length bits.now ≡ 32 }
    requires low { (j < 32) × (k < 32) × (l < 32) }
    ensures { result ≡ small_sigma_bits field j k l bits.now }
{
    let mut all = [Fe::ZERO; 32];
    for i in 0..32 {
        all[i] = xor3(bits[(i + j) % 32], bits[(i + k) % 32], shifted(bits, l, i));
    }
    all
}

/// The columns of Ch.
fn choice_columns(x: &[Fe], y: &[Fe], z: &[Fe]) -> [Fe; 32]
    requires { (length x.now ≡ 32) × (length y.now ≡ 32) × (length z.now ≡ 32) }
    ensures { result ≡ choice_bits field x.now y.now z.now }
{
    let mut all = [Fe::ZERO; 32];
    for i in 0..32 {
        all[i] = choice_bit(x[i], y[i], z[i]);
    }
    all
}

/// The columns of Maj.
fn majority_columns(x: &[Fe], y: &[Fe], z: &[Fe]) -> [Fe; 32]
    requires { (length x.now ≡ 32) × (length y.now ≡ 32) × (length z.now ≡ 32) }
    ensures { result ≡ majority_bits field x.now y.now z.now }
{
    let mut all = [Fe::ZERO; 32];
    for i in 0..32 {
        all[i] = majority_bit(x[i], y[i], z[i]);
    }
    all
}

/// The halves of three rotations of a word joined by xor.
pub fn big_sigma(j: usize, k: usize, l: usize, bits: &[Fe], word: Option<u32>) -> Halves
    requires long { length bits.now ≡ 32 }
    requires low { (j < 32) × (k < 32) × (l < 32) }
    requires known { word ≡ word_if_bits bits.now }
    ensures { result ≡ halves_by field (big_sigma_bits field j k l bits.now) }
{
    match word {
        Some(w) => halves_of(
            w.rotate_right(j as u32) ^ w.rotate_right(k as u32) ^ w.rotate_right(l as u32),
        ),
        None => sums(&big_sigma_columns(j, k, l, bits)),
    }
}

/// The halves of two rotations and a shift of a word joined by xor.
pub fn small_sigma(j: usize, k: usize, l: usize, bits: &[Fe], word: Option<u32>) -> Halves
    requires long { length bits.now ≡ 32 }
    requires low { (j < 32) × (k < 32) × (l < 32) }
    requires known { word ≡ word_if_bits bits.now }
    ensures { result ≡ halves_by field (small_sigma_bits field j k l bits.now) }
{
    match word {
        Some(w) => halves_of(w.rotate_right(j as u32) ^ w.rotate_right(k as u32) ^ (w >> l)),
        None => sums(&small_sigma_columns(j, k, l, bits)),
    }
}

/// The halves of Ch of three words.
pub fn choice(
    x: &[Fe],
    y: &[Fe],
    z: &[Fe],
    u: Option<u32>,
    v: Option<u32>,
    w: Option<u32>,
) -> Halves
    requires long { (length x.now ≡ 32) × (length y.now ≡ 32) × (length z.now ≡ 32) }
    requires known { (u ≡ word_if_bits x.now) × (v ≡ word_if_bits y.now) × (w ≡ word_if_bits z.now) }
    ensures { result ≡ halves_by field (choice_bits field x.now y.now z.now) }
{
    match (u, v, w) {
        (Some(u), Some(v), Some(w)) => halves_of((u & v) ^ (!u & w)),
        _ => sums(&choice_columns(x, y, z)),
    }
}

/// The halves of Maj of three words.
pub fn majority(
    x: &[Fe],
    y: &[Fe],
    z: &[Fe],
    u: Option<u32>,
    v: Option<u32>,
    w: Option<u32>,
) -> Halves
    requires long { (length x.now ≡ 32) × (length y.now ≡ 32) × (length z.now ≡ 32) }
    requires known { (u ≡ word_if_bits x.now) × (v ≡ word_if_bits y.now) × (w ≡ word_if_bits z.now) }
    ensures { result ≡ halves_by field (majority_bits field x.now y.now z.now) }
{
    match (u, v, w) {
        (Some(u), Some(v), Some(w)) => halves_of((u & v) ^ (u & w) ^ (v & w)),
        _ => sums(&majority_columns(x, y, z)),
    }
}

/// The bit columns of a word.
pub fn bits_of(word: u32) -> [Fe; 32]
    ensures { result ≡ bits_filled word }
{
    let mut all = [Fe::ZERO; 32];
    for i in 0..32 {
        all[i] = Fe::of_u16((word >> i & 1) as u16);
    }
    all
}
