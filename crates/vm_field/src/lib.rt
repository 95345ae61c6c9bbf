//! BabyBear, the prime field of 15 * 2^27 + 1 elements, and words of a row as four of them.
#![tactic(auto)]

ghost use Rattle.std.specs.Prelude.{◌≡◌, ◌↔◌, ℕ, ◌%◌, ◌<◌, SomeIff, IfSome, IsNone, Some};
ghost use Rattle.std.specs.Fmt.{decimal};
ghost use Rattle.vm_field.specs.Field.{modulus, field_add, field_sub, field_mul, field_neg};

use std::fmt;
use std::marker::Model;

pub mod laws;
mod limbs;
#[cfg(test)]
mod tests;

pub use limbs::Limbs;

/// How many elements the field has.
pub const MODULUS: u32 = 15 * (1 << 27) + 1;

/// An element of the field. Clauses see it as its number, which is below `MODULUS`.
#[derive(Clone, Copy, Debug, Default, PartialEq, Eq, PartialOrd, Ord)]
pub struct Fe {
    number: u32,
}

impl Model for Fe {
    ghost Value = { ℕ };

    ghost view = { λ f. f.number };

    ghost invariant = { λ f. f.number < modulus };

    ghost inverse = { λ n. record { number = n } };
}

impl Fe {
    pub const ZERO: Fe = Fe { number: 0 };

    pub const ONE: Fe = Fe { number: 1 };

    /// Carries from one limb of 8 bits to the next are divided by 256.
    pub const INVERSE_OF_256: Fe = Fe {
        number: 2_005_401_601,
    };

    /// The element with this number, if there is one.
    pub const fn new(number: u32) -> Option<Fe>
        ensures { SomeIff result (number < modulus) number }
    {
        if number < MODULUS {
            Some(Fe { number })
        } else {
            None
        }
    }

    pub const fn of_u16(number: u16) -> Fe
        ensures { result ≡ number }
    {
        Fe {
            number: number as u32,
        }
    }

    /// The number of the element, from 0 to `MODULUS - 1`.
    pub const fn value(self) -> u32
        ensures number { result ≡ self }
        ensures below { result < modulus }
    {
        self.number
    }

    pub const fn add(self, other: Fe) -> Fe
        ensures { result ≡ field_add self other }
    {
        Fe::reduced(self.number as u64 + other.number as u64)
    }

    pub const fn sub(self, other: Fe) -> Fe
        ensures { result ≡ field_sub self other }
    {
        Fe::reduced(self.number as u64 + (MODULUS - other.number) as u64)
    }

    pub const fn mul(self, other: Fe) -> Fe
        ensures { result ≡ field_mul self other }
    {
        Fe::reduced(self.number as u64 * other.number as u64)
    }

    pub const fn neg(self) -> Fe
        ensures { result ≡ field_neg self }
    {
        Fe {
            number: (MODULUS - self.number) % MODULUS,
        }
    }

    /// The element whose product with this one is 1, if this one is not 0.
    pub const fn inverse(self) -> Option<Fe>
        ensures zero { IsNone result ↔ (self ≡ 0) }
        ensures inverse { IfSome result (λ i. field_mul self i ≡ 1) }
    {
        if self.number == 0 {
            return None;
        }
        // Each step keeps `self * factor` equal to `rest`, as p = (p / rest) * rest + p % rest.
        let mut rest = self.number;
        let mut factor = Fe::ONE;
        while rest > 1 {
            let quotient = Fe {
                number: MODULUS / rest,
            };
            factor = quotient.mul(factor).neg();
            rest = MODULUS % rest;
        }
        Some(factor)
    }

    const fn reduced(number: u64) -> Fe
        ensures { result ≡ number % modulus }
    {
        Fe {
            number: (number % MODULUS as u64) as u32,
        }
    }
}

/// An element is printed as its number.
impl fmt::Display for Fe {
    ghost output = { λ f. Some (decimal f) };

    fn fmt<W: fmt::Write>(&self, f: &mut fmt::Formatter<W>) -> fmt::Result {
        self.number.fmt(f)
    }
}
