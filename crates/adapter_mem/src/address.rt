//! PTR: the sum of two words below 2 ^ 29, by halves.

ghost use Rattle.air_core.specs.Ring.{field};
ghost use Rattle.std.specs.Prelude.{◌≡◌};
ghost use Rattle.adapter_mem.specs.Pointer.{low_half, high_half, half_out, pointer_constraints, part, pointer};

use air_core::{bit, element};
use vm_field::{Fe, Limbs};

#[tactic(auto, unfolding(crate::specs::Pointer::low_half))]
fn low_half(w: &Limbs) -> Fe
    ensures { result ≡ low_half field w.now }
{
    w.x0.add(Fe::of_u16(256).mul(w.x1))
}

#[tactic(auto, unfolding(crate::specs::Pointer::high_half))]
fn high_half(w: &Limbs) -> Fe
    ensures { result ≡ high_half field w.now }
{
    w.x2.add(Fe::of_u16(256).mul(w.x3))
}

/// (x + y + carry - m) / 65536
#[tactic(auto, unfolding(crate::specs::Pointer::half_out))]
fn half_out(x: Fe, y: Fe, carry: Fe, m: Fe) -> Fe
    ensures { result ≡ half_out field x y carry m }
{
    x.add(y).add(carry).sub(m).mul(element(2_013_235_201))
}

/// The constraints of the halves `low` and `high` of the sum.
#[tactic(auto, unfolding(crate::specs::Pointer::pointer_constraints))]
pub fn pointer_constraints(base: &Limbs, offset: &Limbs, low: Fe, high: Fe) -> [Fe; 2]
    ensures { result ≡ pointer_constraints field base.now offset.now low high }
{
    let first = half_out(low_half(base), low_half(offset), Fe::ZERO, low);
    let second = half_out(high_half(base), high_half(offset), first, high);
    [bit(first), bit(second)]
}

/// What is looked up of the low half: itself less the remainder, by a divisor whose inverse this is.
#[tactic(auto, unfolding(crate::specs::Pointer::part))]
pub fn part(inverse: Fe, low: Fe, remainder: Fe) -> Fe
    ensures { result ≡ part field inverse low remainder }
{
    low.sub(remainder).mul(inverse)
}

/// The sum less its remainder.
#[tactic(auto, unfolding(crate::specs::Pointer::pointer))]
pub fn pointer(low: Fe, high: Fe, remainder: Fe) -> Fe
    ensures { result ≡ pointer field low high remainder }
{
    low.add(element(65536).mul(high)).sub(remainder)
}
