//! The columns of a division of two words.

ghost use Rattle.std.specs.Prelude.{◌≡◌, ◌++◌, ◌&&◌, length, take, nat_eq};
ghost use Rattle.vm_word.specs.Arithmetic.{is_negative, negated_if};
ghost use Rattle.vm_field.specs.Limbs.{list_of, limbs_from};
ghost use Rattle.vm_word.specs.Word.{limbs_of};
ghost use Rattle.gadget_limbs.specs.Less.{digits_by, less_cells, less_filled};
ghost use Rattle.gadget_divide.specs.Divided.{quotient_by, remainder_by, cells_of, divided_filled};

use gadget_limbs::{fill_less, put};
use vm_field::{Fe, Limbs};
use vm_word::limbs;

/// A word, or its negative.
fn negated_if(negative: bool, word: u32) -> u32
    ensures { result ≡ negated_if negative word }
{
    if negative { word.wrapping_neg() } else { word }
}

/// That by 0 is 0.
#[tactic(auto, unfolding(crate::specs::Divided::quotient_by))]
fn quotient_by(dividend: u32, divisor: u32) -> u32
    ensures { result ≡ quotient_by dividend divisor }
{
    if divisor == 0 { 0 } else { dividend / divisor }
}

/// That by 0 is the dividend.
#[tactic(auto, unfolding(crate::specs::Divided::remainder_by))]
fn remainder_by(dividend: u32, divisor: u32) -> u32
    ensures { result ≡ remainder_by dividend divisor }
{
    if divisor == 0 {
        dividend
    } else {
        dividend % divisor
    }
}

/// Whether a word is negative, where it is signed.
fn is_below_zero(signed: bool, word: u32) -> bool
    ensures { result ≡ (signed && is_negative word) }
{
    signed && word >= 1 << 31
}

/// The limbs of a word.
fn limbs_of(word: u32) -> Limbs
    ensures { result ≡ limbs_from (limbs_of word) }
{
    Limbs::of_bytes(&limbs(word))
}

/// The signs and words of a division.
#[derive(Clone, Copy, Debug)]
struct Words {
    left_sign: bool,
    right_sign: bool,
    by_zero: bool,
    dividend: u32,
    divisor: u32,
    quotient: u32,
    remainder: u32,
    signed_quotient: u32,
    signed_remainder: u32,
}

/// Their columns, up to those of LT.
#[tactic(auto, unfolding(vm_field::specs::Limbs::limbs_from))]
fn cells(n: &Words) -> [Fe; 27]
    ensures { result ≡ cells_of n.now.left_sign n.now.right_sign n.now.by_zero n.now.dividend n.now.divisor n.now.quotient n.now.remainder n.now.signed_quotient n.now.signed_remainder }
{
    let (t, s) = (
        Fe::of_u16(n.left_sign as u16),
        Fe::of_u16(n.right_sign as u16),
    );
    let z = Fe::of_u16(n.by_zero as u16);
    let (b, d) = (limbs_of(n.dividend), limbs_of(n.divisor));
    let (q, r) = (limbs_of(n.quotient), limbs_of(n.remainder));
    let (u, v) = (limbs_of(n.signed_quotient), limbs_of(n.signed_remainder));
    [
        t, s, z, b.x0, b.x1, b.x2, b.x3, d.x0, d.x1, d.x2, d.x3, q.x0, q.x1, q.x2, q.x3, r.x0,
        r.x1, r.x2, r.x3, u.x0, u.x1, u.x2, u.x3, v.x0, v.x1, v.x2, v.x3,
    ]
}

/// Writes the columns of LT of two numbers.
fn put_order(own: &mut [Fe], left: &[Fe; 4], right: &[Fe; 4])
    requires { length own.old ≡ 35 }
    ensures long { length own.new ≡ 35 }
    ensures is { own.new ≡ take 27 own.old ++ less_cells (less_filled 0 (digits_by 3 left.now) (digits_by 3 right.now)) }
{
    fill_less(false, left, right, &mut own[27..]);
}

/// The division of two words, signed or not.
fn divided(signed: bool, left: u32, right: u32) -> Words
    ensures left_sign { result.left_sign ≡ (signed && is_negative left) }
    ensures right_sign { result.right_sign ≡ (signed && is_negative right) }
    ensures by_zero { result.by_zero ≡ nat_eq right 0 }
    ensures dividend { result.dividend ≡ negated_if (signed && is_negative left) left }
    ensures divisor { result.divisor ≡ negated_if (signed && is_negative right) right }
    ensures quotient { result.quotient ≡ quotient_by result.dividend result.divisor }
    ensures remainder { result.remainder ≡ remainder_by result.dividend result.divisor }
    ensures signed_quotient { result.signed_quotient ≡ negated_if result.left_sign (negated_if result.right_sign result.quotient) }
    ensures signed_remainder { result.signed_remainder ≡ negated_if result.left_sign result.remainder }
{
    let left_sign = is_below_zero(signed, left);
    let right_sign = is_below_zero(signed, right);
    let dividend = negated_if(left_sign, left);
    let divisor = negated_if(right_sign, right);
    let quotient = quotient_by(dividend, divisor);
    let remainder = remainder_by(dividend, divisor);
    Words {
        left_sign,
        right_sign,
        by_zero: right == 0,
        dividend,
        divisor,
        quotient,
        remainder,
        signed_quotient: negated_if(left_sign, negated_if(right_sign, quotient)),
        signed_remainder: negated_if(left_sign, remainder),
    }
}

/// Writes the columns of the division of two words, signed or not.
#[tactic(auto, unfolding(crate::specs::Divided::divided_filled, vm_field::specs::Limbs::list_of))]
pub fn fill_divided(signed: bool, left: u32, right: u32, own: &mut [Fe])
    requires { length own.old ≡ 35 }
    ensures { own.new ≡ divided_filled signed left right }
{
    let words = divided(signed, left, right);
    put(own, 0, &cells(&words));
    let (remainder, divisor) = (limbs_of(words.remainder), limbs_of(words.divisor));
    put_order(own, &remainder.array(), &divisor.array());
}
