//! A list of at most eight numbers: the tuples that most events have.

ghost use Rattle.std.specs.Prelude.{◌≡◌, ◌<◌, ◌≤◌, ◌*◌, ◌+◌, ◌^◌, ◌==◌, length, IsSome, IfSome, ◌↔◌};
ghost use Rattle.std.proofs.Common.{rules};
ghost use Rattle.std.specs.Cmp.Rules.{comparing};
ghost use Rattle.std.specs.Cmp.Lexicographic.{pointwise};
ghost use Rattle.bus_core.specs.Short.{hashed, hashed_alike, quarter};

use air_core::Tuple;
use std::hash::{Hash, Hasher};
use std::marker::Model;
use vm_field::Fe;

/// How many numbers a short tuple has at most.
pub const MAX_SHORT: u32 = 8;

/// At most eight numbers, seen as their list.
#[derive(Clone, Copy)]
pub struct ShortTuple {
    numbers: [u32; 8],
    len: u32,
}

impl Model for ShortTuple {
    ghost use Rattle.std.specs.Prelude.{◌≡◌, ◌≤◌, ℕ, List, length, take};
    ghost use Rattle.air_core.specs.Padded.{padded};
    ghost use Rattle.bus_core.specs.Short.{fields_given_back};

    ghost Value = { List ℕ };

    ghost view = { λ t. take t.len t.numbers };

    ghost invariant = { λ t. (t.len ≤ 8) × (t.numbers ≡ padded 8 (take t.len t.numbers)) };

    ghost inverse = { λ list. record { numbers = padded 8 list; len = length list } };

    ghost inverse_ok = { fields_given_back };
}

impl ShortTuple {
    pub fn of(tuple: &Tuple) -> Option<ShortTuple>
        ensures short { IsSome result ↔ (length tuple.now ≤ 8) }
        ensures same { IfSome result (λ s. s ≡ tuple.now) }
    {
        let len = tuple.len();
        if len > MAX_SHORT {
            return None;
        }
        Some(ShortTuple {
            numbers: tuple.front(),
            len,
        })
    }

    pub fn of_elements(elements: &[Fe]) -> Option<ShortTuple>
        ensures short { IsSome result ↔ (length elements.now ≤ 8) }
        ensures same { IfSome result (λ s. s ≡ elements.now) }
    {
        if elements.len() > MAX_SHORT as usize {
            return None;
        }
        let mut numbers = [0; MAX_SHORT as usize];
        for (i, element) in elements.iter().enumerate() {
            numbers[i] = element.value();
        }
        Some(ShortTuple {
            numbers,
            len: elements.len() as u32,
        })
    }

    pub fn tuple(&self) -> Tuple
        ensures { result ≡ self.now }
    {
        Tuple::of(&self.numbers[..self.len as usize])
    }
}

impl PartialEq for ShortTuple {
    ghost eq = { pointwise ◌==◌ };

    ghost laws = { Prim.search (comparing, rules) };

    fn eq(&self, other: &ShortTuple) -> bool {
        self.len == other.len && self.numbers == other.numbers
    }
}

impl Eq for ShortTuple {
    ghost laws = { Prim.search (comparing, rules) };
}

/// Four numbers at a time, and zeros where there are none.
impl Hash for ShortTuple {
    ghost hash_input = { hashed };

    ghost respects_eq = { hashed_alike };

    fn hash<H: Hasher>(&self, state: &mut H) {
        let n = &self.numbers;
        state.write_u128(four(n[0], n[1], n[2], n[3]));
        state.write_u128(four(n[4], n[5], n[6], n[7]));
    }
}

fn four(a: u32, b: u32, c: u32, d: u32) -> u128
    ensures { result ≡ quarter a b c d }
{
    a as u128 + b as u128 * (1 << 32) + c as u128 * (1 << 64) + d as u128 * (1 << 96)
}
