//! A list of at most fifty numbers that needs no memory.

ghost use Rattle.std.specs.Prelude.{◌≡◌, ◌<◌, ◌≤◌, ◌↔◌, ◌==◌, [], IsTrue, length, slice_get, take};
ghost use Rattle.std.proofs.Common.{rules};
ghost use Rattle.air_core.specs.Padded.{padded};
ghost use Rattle.std.specs.Cmp.{partial_order_from_own_ties};
ghost use Rattle.std.specs.Cmp.Rules.{comparing, hashing};
ghost use Rattle.std.specs.Hash as fed;
ghost use Rattle.std.specs.Cmp.Lexicographic.{pointwise, slice_cmp};
ghost use Rattle.std.specs.Ordering.{nat_cmp, on, as_partial_cmp};

use std::cmp::Ordering;
use std::hash::{Hash, Hasher};
use std::marker::Model;
use vm_field::Fe;

/// How many numbers a tuple has at most.
pub const MAX_TUPLE: usize = 50;

/// At most fifty numbers, seen as their list, and compared as lists are: by the first number that
/// differs, and a list before each longer one that it begins.
#[derive(Clone, Copy, Debug)]
pub struct Tuple {
    numbers: [u32; MAX_TUPLE],
    len: u32,
}

impl Model for Tuple {
    ghost use Rattle.std.specs.Prelude.{◌≡◌, ◌≤◌, ℕ, List, length, take};
    ghost use Rattle.air_core.specs.Padded.{padded};

    ghost Value = { List ℕ };

    ghost view = { λ t. take t.len t.numbers };

    ghost invariant = { λ t. (t.len ≤ 50) × (t.numbers ≡ padded 50 (take t.len t.numbers)) };

    ghost inverse = { λ list. record { numbers = padded 50 list; len = length list } };

    ghost use Rattle.air_core.specs.TupleFields.{fields_given_back};

    ghost inverse_ok = { fields_given_back };
}

impl Tuple {
    pub fn of(numbers: &[u32]) -> Tuple
        requires { length numbers.now ≤ MAX_TUPLE }
        ensures { result ≡ numbers.now }
    {
        let mut all = [0; MAX_TUPLE];
        all[..numbers.len()].copy_from_slice(numbers);
        Tuple {
            numbers: all,
            len: numbers.len() as u32,
        }
    }

    /// As `of`, without an array of numbers between.
    pub fn of_elements(elements: &[Fe]) -> Tuple
        requires { length elements.now ≤ MAX_TUPLE }
        ensures { result ≡ elements.now }
    {
        let mut numbers = [0; MAX_TUPLE];
        for (i, element) in elements.iter().enumerate() {
            numbers[i] = element.value();
        }
        Tuple {
            numbers,
            len: elements.len() as u32,
        }
    }

    pub fn len(&self) -> u32
        ensures { result ≡ length self.now }
    {
        self.len
    }

    pub fn is_empty(&self) -> bool
        ensures { IsTrue result ↔ (self.now ≡ []) }
    {
        self.len == 0
    }

    /// The number at a place, from 0 on.
    pub fn at(&self, place: u32) -> Option<u32>
        ensures { result ≡ slice_get self.now place }
    {
        if place < self.len {
            Some(self.numbers[place as usize])
        } else {
            None
        }
    }

    /// The first eight numbers, and zeros where the tuple has none.
    pub fn front(&self) -> [u32; 8]
        ensures { result ≡ take 8 (padded 50 self.now) }
    {
        let n = &self.numbers;
        [n[0], n[1], n[2], n[3], n[4], n[5], n[6], n[7]]
    }

    pub fn as_slice(&self) -> &[u32]
        ensures { result.now ≡ self.now }
    {
        &self.numbers[..self.len as usize]
    }
}

impl PartialEq for Tuple {
    ghost eq = { pointwise ◌==◌ };

    ghost laws = { Prim.search (comparing, rules) };

    fn eq(&self, other: &Tuple) -> bool {
        self.as_slice() == other.as_slice()
    }
}

impl Eq for Tuple {
    ghost laws = { Prim.search (comparing, rules) };
}

/// The numbers that the tuple has, and not the places behind them.
impl Hash for Tuple {
    ghost hash_input = { fed.slice fed.u32 };

    ghost respects_eq = { Prim.search (hashing, rules) };

    fn hash<H: Hasher>(&self, state: &mut H) {
        self.as_slice().hash(state);
    }
}

impl PartialOrd for Tuple {
    ghost partial_cmp = { as_partial_cmp (slice_cmp nat_cmp) };

    ghost laws = { partial_order_from_own_ties (Prim.search (comparing, rules)) (Prim.search (comparing, rules)) };

    fn partial_cmp(&self, other: &Tuple) -> Option<Ordering> {
        Some(self.cmp(other))
    }
}

impl Ord for Tuple {
    ghost cmp = { slice_cmp nat_cmp };

    ghost total = { Prim.search (comparing, rules) };

    ghost matches_partial_cmp = { Prim.search (comparing, rules) };

    ghost matches_eq = { Prim.search (comparing, rules) };

    fn cmp(&self, other: &Tuple) -> Ordering {
        self.as_slice().cmp(&other.as_slice())
    }
}
