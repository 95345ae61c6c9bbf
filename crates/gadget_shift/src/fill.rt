//! The columns that a shift of a word fills.

ghost use Rattle.std.specs.Prelude.{◌≡◌, ◌<◌, ◌≤◌, ◌++◌, ◌∷◌, [], length, take};
ghost use Rattle.air_core.specs.Flags.{one_hot};
ghost use Rattle.gadget_shift.specs.Shift.{carry_fill, shift_filled};

use air_core::element;
use gadget_time::set_flag;
use vm_field::{Fe, Limbs};

/// What is shifted out of a limb.
fn carry(left: bool, power: u32, limb: Fe) -> Fe
    requires some { 0 < power }
    requires few { power ≤ 128 }
    ensures { result ≡ carry_fill left power limb }
{
    let number = limb.value();
    if left {
        element((number as u64 * power as u64 / 256) as u32)
    } else {
        element(number % power)
    }
}

fn put_bits(own: &mut [Fe], bits: usize)
    requires wide { length own.old ≡ 16 }
    requires below { bits < 8 }
    ensures long { length own.new ≡ 16 }
    ensures so_far { take 8 own.new ≡ one_hot 8 bits }
{
    set_flag(&mut own[..8], bits);
}

fn put_limbs(own: &mut [Fe], limbs: usize)
    requires wide { length own.old ≡ 16 }
    requires below { limbs < 4 }
    ensures long { length own.new ≡ 16 }
    ensures so_far { take 12 own.new ≡ take 8 own.old ++ one_hot 4 limbs }
{
    set_flag(&mut own[8..12], limbs);
}

fn put_carries(own: &mut [Fe], left: bool, power: u32, word: Limbs)
    requires wide { length own.old ≡ 16 }
    requires some { 0 < power }
    requires few { power ≤ 128 }
    ensures long { length own.new ≡ 16 }
    ensures is { own.new ≡ take 12 own.old ++ (carry_fill left power word.x0 ∷ carry_fill left power word.x1 ∷ carry_fill left power word.x2 ∷ carry_fill left power word.x3 ∷ []) }
{
    own[12..].copy_from_slice(&[
        carry(left, power, word.x0),
        carry(left, power, word.x1),
        carry(left, power, word.x2),
        carry(left, power, word.x3),
    ]);
}

/// Writes the sixteen columns of a shift of a word to the left or to the right, by the lowest limb of the amount.
pub fn fill_shift(left: bool, amount: Fe, word: Limbs, own: &mut [Fe])
    requires { length own.old ≡ 16 }
    ensures long { length own.new ≡ 16 }
    ensures is { own.new ≡ shift_filled left amount word }
{
    let amount = amount.value();
    let bits = amount % 8;
    put_bits(own, bits as usize);
    put_limbs(own, (amount % 32 / 8) as usize);
    put_carries(own, left, 1 << bits, word);
}
