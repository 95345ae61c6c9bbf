//! The word that is written, by the flags.

ghost use Rattle.std.specs.Prelude.{◌≡◌, length};
ghost use Rattle.air_core.specs.Ring.{field};
ghost use Rattle.gadget_divide.specs.Divided.{divided_of};
ghost use Rattle.chip_divrem.specs.DivRem.{signed, quotients, remainders, chosen_limb, chosen};

use gadget_divide::Divided;
use vm_field::{Fe, Limbs};

/// Where the words are signed: DIV + REM.
#[tactic(auto, unfolding(crate::specs::DivRem::signed))]
pub fn signed(flags: &[Fe]) -> Fe
    requires { length flags.now ≡ 4 }
    ensures { result ≡ signed field flags.now }
{
    flags[0].add(flags[2])
}

#[tactic(auto, unfolding(crate::specs::DivRem::quotients))]
fn quotients(flags: &[Fe]) -> Fe
    requires { length flags.now ≡ 4 }
    ensures { result ≡ quotients field flags.now }
{
    flags[0].add(flags[1])
}

#[tactic(auto, unfolding(crate::specs::DivRem::remainders))]
fn remainders(flags: &[Fe]) -> Fe
    requires { length flags.now ≡ 4 }
    ensures { result ≡ remainders field flags.now }
{
    flags[2].add(flags[3])
}

/// quotients * (255 * z + (1 - z) * u) + remainders * s
#[tactic(auto, unfolding(crate::specs::DivRem::chosen_limb))]
fn chosen_limb(quotients: Fe, remainders: Fe, z: Fe, u: Fe, s: Fe) -> Fe
    ensures { result ≡ chosen_limb field quotients remainders z u s }
{
    let quotient = Fe::of_u16(255).mul(z).add(Fe::ONE.sub(z).mul(u));
    quotients.mul(quotient).add(remainders.mul(s))
}

/// The quotient, or the remainder.
#[tactic(auto, unfolding(crate::specs::DivRem::chosen))]
fn chosen(q: Fe, r: Fe, own: &[Fe]) -> Limbs
    requires { length own.now ≡ 35 }
    ensures { result ≡ chosen field q r (divided_of field own.now) }
{
    let c = Divided::read(own);
    let (z, u, s) = (c.by_zero, c.signed_quotient, c.signed_remainder);
    Limbs {
        x0: chosen_limb(q, r, z, u.x0, s.x0),
        x1: chosen_limb(q, r, z, u.x1, s.x1),
        x2: chosen_limb(q, r, z, u.x2, s.x2),
        x3: chosen_limb(q, r, z, u.x3, s.x3),
    }
}

/// The word that a row writes.
pub fn new_word(flags: &[Fe], own: &[Fe]) -> Limbs
    requires flags { length flags.now ≡ 4 }
    requires own { length own.now ≡ 35 }
    ensures { result ≡ chosen field (quotients field flags.now) (remainders field flags.now) (divided_of field own.now) }
{
    chosen(quotients(flags), remainders(flags), own)
}
