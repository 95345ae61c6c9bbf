//! The constraints of a division beside its product.

ghost use Rattle.std.specs.Prelude.{◌≡◌, ◌<◌, ◌≤◌, ◌^◌, length};
ghost use Rattle.air_core.specs.Ring.{field};
ghost use Rattle.air_core.specs.First.{first_from};
ghost use Rattle.gadget_divide.specs.Divided.{divided_of, order_of, signs_differ, zero_constraints, not_below, operand_constraints, result_constraints};

use crate::Divided;
use air_core::{bit, first, first_nonzero};
use gadget_limbs::{less_broken, negative_broken, sign_constraints};
use vm_field::{Fe, Limbs};

/// g + h - 2 * g * h
#[tactic(auto, unfolding(crate::specs::Divided::signs_differ))]
fn signs_differ(g: Fe, h: Fe) -> Fe
    ensures { result ≡ signs_differ field g h }
{
    g.add(h).sub(Fe::of_u16(2).mul(g).mul(h))
}

/// z * (z - 1), and z * x for each limb of the divisor
#[tactic(auto, unfolding(crate::specs::Divided::zero_constraints))]
fn zero_constraints(z: Fe, word: Limbs) -> [Fe; 5]
    ensures { result ≡ zero_constraints field z word }
{
    [
        bit(z),
        z.mul(word.x0),
        z.mul(word.x1),
        z.mul(word.x2),
        z.mul(word.x3),
    ]
}

/// valid * (1 - z) * (less - 1)
#[tactic(auto, unfolding(crate::specs::Divided::not_below))]
fn not_below(valid: Fe, z: Fe, less: Fe) -> Fe
    ensures { result ≡ not_below field valid z less }
{
    valid.mul(Fe::ONE.sub(z)).mul(less.sub(Fe::ONE))
}

/// What LT answers.
#[tactic(auto, unfolding(crate::specs::Divided::divided_of))]
fn answer(own: &[Fe]) -> Fe
    requires { 35 ≤ length own.now }
    ensures { result ≡ (order_of field (divided_of field own.now)).less }
{
    own[34]
}

/// The place of the first broken constraint of two words, where the first stands at the place `from`: of their signs,
/// under the gate, whether the divisor is 0, and their distances from 0. There are 25.
pub fn operands_broken(from: u32, gate: Fe, own: &[Fe], left: Limbs, right: &Limbs) -> Option<u32>
    requires own { 35 ≤ length own.now }
    requires from { from < 2 ^ 18 }
    ensures { result ≡ first_from from (operand_constraints field gate (divided_of field own.now) left right.now) }
{
    let c = Divided::read(own);
    let left_sign = first_nonzero(from, &sign_constraints(c.left_sign, gate));
    let right_sign = first_nonzero(from + 2, &sign_constraints(c.right_sign, gate));
    let by_zero = first_nonzero(from + 4, &zero_constraints(c.by_zero, *right));
    let dividend = negative_broken(from + 9, c.left_sign, left, c.dividend);
    let divisor = negative_broken(from + 17, c.right_sign, *right, c.divisor);
    let words = first(by_zero, first(dividend, divisor));
    first(left_sign, first(right_sign, words))
}

/// The same of the 34 of quotient and remainder with their signs, and of the remainder's order.
pub fn results_broken(from: u32, valid: Fe, own: &[Fe]) -> Option<u32>
    requires own { 35 ≤ length own.now }
    requires from { from < 2 ^ 18 }
    ensures { result ≡ first_from from (result_constraints field valid (divided_of field own.now)) }
{
    let c = Divided::read(own);
    let differ = signs_differ(c.left_sign, c.right_sign);
    let quotient = negative_broken(from, differ, c.quotient, c.signed_quotient);
    let remainder = negative_broken(from + 8, c.left_sign, c.remainder, c.signed_remainder);
    let (rest, divisor) = (c.remainder.array(), c.divisor.array());
    let less = less_broken(from + 16, &rest, &divisor, &c.less);
    let below = not_below(valid, c.by_zero, answer(own));
    let order = first(less, first_nonzero(from + 33, &[below]));
    first(quotient, first(remainder, order))
}
