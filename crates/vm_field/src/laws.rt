//! Laws of the field. Each is what a function with an empty body ensures.

ghost use Rattle.std.specs.Prelude.{◌≡◌};
ghost use Rattle.vm_field.specs.Field.{field_mul};
ghost use Rattle.vm_field.specs.Laws.{ModulusIsPrime, OperationsFormAField, NoZeroDivisors, InverseIsOne, CloseNumbersLift, QuotientsLift};

use crate::Fe;

/// Law: the modulus is prime.
pub fn modulus_is_prime()
    ensures { ModulusIsPrime }
{}

/// Law: the numbers below the modulus, with the four operations, are a field.
pub fn operations_form_a_field()
    ensures { OperationsFormAField }
{}

/// Law: a product of two elements is 0 only if one of them is.
pub fn no_zero_divisors()
    ensures { NoZeroDivisors }
{}

/// Law: an element has at most one inverse.
pub fn inverse_is_one()
    ensures { InverseIsOne }
{}

/// Law: two whole numbers that are congruent modulo p, and less than p apart, are equal.
pub fn close_numbers_lift()
    ensures { CloseNumbersLift }
{}

/// Law: where `k` is the quotient of `s - a` by `n`, as the product with the inverse of `n`, then
/// `s` is `a + n * k` in whole numbers, if neither reaches p.
pub fn quotients_lift()
    ensures { QuotientsLift }
{}

/// Law: the constant is the inverse of 256.
pub fn inverse_of_256() -> Fe
    ensures { field_mul 256 result ≡ 1 }
{
    Fe::INVERSE_OF_256
}
