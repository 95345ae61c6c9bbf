//! Field elements from whole numbers.

ghost use Rattle.std.specs.Prelude.{◌≡◌, ◌<◌};
ghost use Rattle.vm_field.specs.Field.{modulus};

use vm_field::Fe;

/// For numbers that are known to be below the modulus, as a pc or a time in range. `Fe::new` tests it.
pub fn element(number: u32) -> Fe
    requires { number < modulus }
    ensures { result ≡ number }
{
    Fe::new(number).unwrap()
}
