//! SIGN: the top bit of a byte.

ghost use Rattle.air_core.specs.Ring.{field};
ghost use Rattle.std.specs.Prelude.{◌≡◌};
ghost use Rattle.gadget_limbs.specs.Sign.{sign_constraints, sign_looked_up};

use air_core::bit;
use vm_field::Fe;

/// The constraints of the sign `g`, which is asked for where the gate is 1.
#[tactic(auto, unfolding(crate::specs::Sign::sign_constraints))]
pub fn sign_constraints(g: Fe, gate: Fe) -> [Fe; 2]
    ensures { result ≡ sign_constraints field g gate }
{
    [bit(g), Fe::ONE.sub(gate).mul(g)]
}

/// What is looked up in the xor table of the byte `x`.
#[tactic(auto, unfolding(crate::specs::Sign::sign_looked_up))]
pub fn sign_looked_up(g: Fe, x: Fe) -> [Fe; 3]
    ensures { result ≡ sign_looked_up field g x }
{
    let half = Fe::of_u16(128);
    [x, half, x.add(half).sub(Fe::of_u16(256).mul(g))]
}
