//! NEG: a word and its negative.

ghost use Rattle.air_core.specs.Ring.{field};
ghost use Rattle.std.specs.Prelude.{◌≡◌, ◌<◌, ◌^◌};
ghost use Rattle.vm_field.specs.Limbs.{list_of};
ghost use Rattle.air_core.specs.First.{first_from};
ghost use Rattle.gadget_limbs.specs.Sign.{negative_constraints, same_constraints};

use air_core::{first, first_nonzero};
use vm_field::{Fe, Limbs};

/// (1 - gate) * (x - y) for each limb
#[tactic(auto, unfolding(crate::specs::Sign::same_constraints, vm_field::specs::Limbs::list_of))]
fn same_constraints(gate: Fe, word: Limbs, other: Limbs) -> [Fe; 4]
    ensures { result ≡ same_constraints field gate (list_of word) (list_of other) }
{
    [
        Fe::ONE.sub(gate).mul(word.x0.sub(other.x0)),
        Fe::ONE.sub(gate).mul(word.x1.sub(other.x1)),
        Fe::ONE.sub(gate).mul(word.x2.sub(other.x2)),
        Fe::ONE.sub(gate).mul(word.x3.sub(other.x3)),
    ]
}

/// The place of the first broken constraint of NEG, where the first stands at the place `from`: the other
/// word is the negative of the word where the gate is 1, and the word where it is 0.
pub fn negative_broken(from: u32, gate: Fe, word: Limbs, other: Limbs) -> Option<u32>
    requires { from < 2 ^ 30 }
    ensures { result ≡ first_from from (negative_constraints field gate (list_of word) (list_of other)) }
{
    let same = same_constraints(gate, word, other);
    let none = Limbs::ZERO.array();
    let sums = crate::first_broken(from + 4, gate, &word.array(), &other.array(), &none);
    first(first_nonzero(from, &same), sums)
}
