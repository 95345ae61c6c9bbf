//! ADD: the sum of two numbers by their limbs.

ghost use Rattle.air_core.specs.Ring.{field};
ghost use Rattle.std.specs.Prelude.{◌≡◌, ℕ, ◌+◌, ◌<◌, ◌^◌, length};
ghost use Rattle.air_core.specs.First.{first_from};
ghost use Rattle.gadget_limbs.specs.Sum.{sum_constraints, carry_out, gated_bit};

use air_core::bit;
use vm_field::Fe;

/// (x + y + carry - z) / 256
#[tactic(auto, unfolding(crate::specs::Sum::carry_out))]
fn carry_out(x: Fe, y: Fe, carry: Fe, z: Fe) -> Fe
    ensures { result ≡ carry_out field x y carry z }
{
    x.add(y).add(carry).sub(z).mul(Fe::INVERSE_OF_256)
}

#[tactic(auto, unfolding(crate::specs::Sum::gated_bit))]
fn gated_bit(gate: Fe, carry: Fe) -> Fe
    ensures { result ≡ gated_bit field gate carry }
{
    gate.mul(bit(carry))
}

/// The place of the first broken constraint of ADD, where that of the lowest limb stands at the
/// place `from`.
pub fn first_broken<const N: usize>(
    from: u32,
    gate: Fe,
    left: &[Fe; N],
    right: &[Fe; N],
    sum: &[Fe; N],
) -> Option<u32>
    requires { from + N < 2 ^ 32 }
    ensures { result ≡ first_from from (sum_constraints field gate 0 left.now right.now sum.now) }
{
    if gate == Fe::ZERO {
        return None;
    }
    let mut carry = Fe::ZERO;
    for i in 0..N {
        carry = carry_out(left[i], right[i], carry, sum[i]);
        if gated_bit(gate, carry) != Fe::ZERO {
            return Some(from + i as u32);
        }
    }
    None
}
