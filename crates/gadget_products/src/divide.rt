//! The division of a word by a word: the divisor's product with the quotient, and the remainder.

ghost use Rattle.air_core.specs.Ring.{field};
ghost use Rattle.std.specs.Prelude.{◌≡◌, ◌++◌, [], ◌∷◌};
ghost use Rattle.vm_field.specs.Limbs.{list_of};
ghost use Rattle.gadget_products.specs.Divide.{added, division_carries, division_sums, division_top, six};

use crate::{carries, places};
use vm_field::{Fe, Limbs};

/// The sums of two lists, place by place.
fn added<const N: usize>(left: &[Fe; N], right: &[Fe; N]) -> [Fe; N]
    ensures { result ≡ added field left.now right.now }
{
    let mut sums = [Fe::ZERO; N];
    for i in 0..N {
        sums[i] = left[i].add(right[i]);
    }
    sums
}

#[tactic(auto, unfolding(vm_field::specs::Limbs::list_of))]
fn six(word: Limbs) -> [Fe; 6]
    ensures { result ≡ six field word }
{
    [word.x0, word.x1, word.x2, word.x3, Fe::ZERO, Fe::ZERO]
}

/// The six lowest places of c * q + r.
#[tactic(auto, unfolding(crate::specs::Divide::division_sums))]
fn division_sums(c: Limbs, q: Limbs, r: Limbs) -> [Fe; 6]
    ensures { result ≡ division_sums field c q r }
{
    added(&places::<6>(&c.array(), &q.array()), &six(r))
}

/// What a division of b by c with this quotient and remainder is made of.
#[derive(Clone, Copy, Debug)]
pub struct Division {
    /// The carries from limb to limb, each of 11 bits where c * q + r is b.
    pub carries: [Fe; 6],
    /// The highest place and the last carry, 0 where c * q + r is b.
    pub top: Fe,
}

impl Division {
    /// Of b by c, with the quotient q and the remainder r.
    pub fn new(b: Limbs, c: Limbs, q: Limbs, r: Limbs) -> Division
        ensures carries { result.carries ≡ division_carries field b c q r }
        ensures top { result.top ≡ division_top field b c q r }
    {
        let highest = c.x3.mul(q.x3);
        let carries = carries(&division_sums(c, q, r), &six(b));
        let top = highest.add(carries[5]);
        Division { carries, top }
    }
}
