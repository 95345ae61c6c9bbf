//! The product of two words, each extended to eight limbs.

ghost use Rattle.air_core.specs.Ring.{field};
ghost use Rattle.std.specs.Prelude.{◌≡◌, ◌++◌};
ghost use Rattle.vm_field.specs.Limbs.{list_of};
ghost use Rattle.gadget_products.specs.Laws.{word_in};
ghost use Rattle.gadget_products.specs.Multiply.{extended, product_carries};

use crate::{carries, places};
use vm_field::{Fe, Limbs};

/// The limbs of a word, and four of 255 * g.
#[tactic(auto, unfolding(crate::specs::Multiply::extended, vm_field::specs::Limbs::list_of))]
fn extended(g: Fe, word: Limbs) -> [Fe; 8]
    ensures { result ≡ extended field g word }
{
    let e = Fe::of_u16(255).mul(g);
    [word.x0, word.x1, word.x2, word.x3, e, e, e, e]
}

/// The limbs of two words, the low one's first.
#[tactic(auto, unfolding(vm_field::specs::Limbs::list_of))]
pub fn both(low: Limbs, high: Limbs) -> [Fe; 8]
    ensures { result ≡ list_of low ++ list_of high }
{
    [
        low.x0, low.x1, low.x2, low.x3, high.x0, high.x1, high.x2, high.x3,
    ]
}

/// The carries of the product of two words of these signs, whose limbs are those of `low` and `high`.
#[tactic(auto, unfolding(crate::specs::Multiply::product_carries))]
pub fn product_carries(
    left_sign: Fe,
    right_sign: Fe,
    left: Limbs,
    right: Limbs,
    low: Limbs,
    high: Limbs,
) -> [Fe; 8]
    ensures { result ≡ product_carries field left_sign right_sign left right low high }
{
    let sums = places::<8>(&extended(left_sign, left), &extended(right_sign, right));
    carries(&sums, &both(low, high))
}

/// The word that limbs make, modulo 2^32: they may be any elements.
#[tactic(auto, unfolding(vm_field::specs::Limbs::list_of))]
pub fn word_of(limbs: Limbs) -> u32
    ensures { result ≡ word_in limbs }
{
    let low = limbs.x0.value() as u64 + limbs.x1.value() as u64 * 256;
    let high = limbs.x2.value() as u64 + limbs.x3.value() as u64 * 256;
    ((low + high * 65536) % (1 << 32)) as u32
}
