//! The rows of the lookup tables by their places, and the places of rows. No table stands in memory.
#![tactic(auto)]

ghost use Rattle.std.specs.Prelude.{◌≡◌, ◌<◌, ◌≤◌, ◌↔◌, ℕ, List, Some, length};
ghost use Rattle.sha_words.specs.Sha256.{round_constant};
ghost use Rattle.lookup_tables.specs.Places.{XorAt, RangeAt, ConstantAt, IsRowAt};

pub mod laws;
#[cfg(test)]
mod tests;

use air_core::bus::{RANGE, SHA_CONSTANTS, XOR};
use air_core::{MAX_TUPLE, Tuple};
use sha_words::ROUND_CONSTANTS;
use vm_field::Fe;

/// The row at a place of the table of a bus.
pub fn tuple_at(bus: u8, place: u32) -> Option<Tuple>
    ensures { (tuple : List ℕ) → (result ≡ Some tuple ↔ IsRowAt bus place tuple) }
{
    match bus {
        XOR => xor_at(place),
        RANGE => range_at(place),
        SHA_CONSTANTS => constant_at(place),
        _ => None,
    }
}

/// The place of a row of the table of a bus, where its counts stand.
pub fn count_place(bus: u8, tuple: &Tuple) -> Option<u32>
    ensures { (place : ℕ) → (result ≡ Some place ↔ IsRowAt bus place tuple.now) }
{
    match bus {
        XOR => xor_place(tuple.as_slice()),
        RANGE => range_place(tuple.as_slice()),
        SHA_CONSTANTS => constant_place(tuple),
        _ => None,
    }
}

/// As `count_place`, of a row's elements: no tuple is made of them, but of a round's constant.
pub fn place_of_elements(bus: u8, elements: &[Fe]) -> Option<u32>
    requires { length elements.now ≤ MAX_TUPLE }
    ensures { (place : ℕ) → (result ≡ Some place ↔ IsRowAt bus place elements.now) }
{
    match bus {
        XOR => place_of_three(elements),
        RANGE => place_of_two(elements),
        SHA_CONSTANTS => constant_place(&Tuple::of_elements(elements)),
        _ => None,
    }
}

fn place_of_three(elements: &[Fe]) -> Option<u32>
    ensures { (place : ℕ) → (result ≡ Some place ↔ XorAt place elements.now) }
{
    if elements.len() != 3 {
        return None;
    }
    xor_place(&[
        elements[0].value(),
        elements[1].value(),
        elements[2].value(),
    ])
}

fn place_of_two(elements: &[Fe]) -> Option<u32>
    ensures { (place : ℕ) → (result ≡ Some place ↔ RangeAt place elements.now) }
{
    if elements.len() != 2 {
        return None;
    }
    range_place(&[elements[0].value(), elements[1].value()])
}

fn xor_at(place: u32) -> Option<Tuple>
    ensures { (tuple : List ℕ) → (result ≡ Some tuple ↔ XorAt place tuple) }
{
    if place >= 65_536 {
        return None;
    }
    let x = place / 256;
    let y = place % 256;
    Some(Tuple::of(&[x, y, x ^ y]))
}

fn xor_place(numbers: &[u32]) -> Option<u32>
    ensures { (place : ℕ) → (result ≡ Some place ↔ XorAt place numbers.now) }
{
    if numbers.len() != 3 {
        return None;
    }
    let (x, y, xor) = (numbers[0], numbers[1], numbers[2]);
    if x < 256 && y < 256 && xor == x ^ y {
        Some(256 * x + y)
    } else {
        None
    }
}

fn range_at(place: u32) -> Option<Tuple>
    ensures { (tuple : List ℕ) → (result ≡ Some tuple ↔ RangeAt place tuple) }
{
    if place >= 131_071 {
        return None;
    }
    let exponent = (place + 1).ilog2();
    Some(Tuple::of(&[place + 1 - 2u32.pow(exponent), exponent]))
}

fn range_place(numbers: &[u32]) -> Option<u32>
    ensures { (place : ℕ) → (result ≡ Some place ↔ RangeAt place numbers.now) }
{
    if numbers.len() != 2 {
        return None;
    }
    let (value, exponent) = (numbers[0], numbers[1]);
    if exponent <= 16 && value < 2u32.pow(exponent) {
        Some(2u32.pow(exponent) - 1 + value)
    } else {
        None
    }
}

fn constant_at(place: u32) -> Option<Tuple>
    ensures { (tuple : List ℕ) → (result ≡ Some tuple ↔ ConstantAt place tuple) }
{
    if place >= 64 {
        return None;
    }
    let constant = round_constant(place);
    Some(Tuple::of(&[place, constant % 65_536, constant / 65_536]))
}

#[tactic(auto, unfolding(sha_words::specs::Sha256::round_constant))]
fn round_constant(round: u32) -> u32
    requires { round < 64 }
    ensures { result ≡ round_constant round }
{
    ROUND_CONSTANTS[round as usize]
}

fn constant_place(tuple: &Tuple) -> Option<u32>
    ensures { (place : ℕ) → (result ≡ Some place ↔ ConstantAt place tuple.now) }
{
    let round = tuple.at(0)?;
    let row = constant_at(round)?;
    if row == *tuple { Some(round) } else { None }
}
