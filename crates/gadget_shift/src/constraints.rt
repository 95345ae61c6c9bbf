//! The constraints of a shift.

ghost use Rattle.std.specs.Prelude.{◌≡◌, ◌<◌, ◌≤◌, ◌^◌, length};
ghost use Rattle.vm_field.specs.Field.{field_add, field_sub, field_mul};
ghost use Rattle.air_core.specs.First.{first_from};
ghost use Rattle.air_core.specs.Ring.{field};
ghost use Rattle.gadget_shift.specs.Shift.{shift_columns, amount_constraints, left_constraints, right_constraints};

use crate::columns::{Columns, power_by};
use air_core::{bits_broken, first, first_nonzero, flag_sum};
use vm_field::{Fe, Limbs};

/// The place of the first broken constraint of the amount, where the first stands at the place `from`.
pub fn amount_broken(from: u32, valid: Fe, own: &[Fe]) -> Option<u32>
    requires own { 16 ≤ length own.now }
    requires from { from < 2 ^ 17 }
    ensures { result ≡ first_from from (amount_constraints field valid (shift_columns field own.now)) }
{
    let c = Columns::read(own);
    let limbs = c.limbs.array();
    let bits = bits_broken(from, &c.bits);
    let one_bit = first_nonzero(from + 8, &[flag_sum(&c.bits).sub(valid)]);
    let places = bits_broken(from + 9, &limbs);
    let one_place = flag_sum(&limbs).sub(valid);
    let one_place = first_nonzero(from + 13, &[one_place]);
    first(bits, first(one_bit, first(places, one_place)))
}

/// b * T - 256 * next + c
fn shifted(power: Fe, b: Fe, c: Fe, next: Fe) -> Fe
    ensures { result ≡ field_add (field_sub (field_mul b power) (field_mul 256 next)) c }
{
    b.mul(power).sub(Fe::of_u16(256).mul(next)).add(c)
}

/// gate * limb * (a - x)
fn gated(gate: Fe, limb: Fe, a: Fe, x: Fe) -> Fe
    ensures { result ≡ field_mul (field_mul gate limb) (field_sub a x) }
{
    gate.mul(limb).mul(a.sub(x))
}

/// Under the gate `new` is `old` shifted to the left.
pub fn left_constraints(gate: Fe, own: &[Fe], old: &Limbs, new: &Limbs) -> [Fe; 16]
    requires { 16 ≤ length own.now }
    ensures { result ≡ left_constraints field gate (shift_columns field own.now) old.now new.now }
{
    let c = Columns::read(own);
    let (power, limbs, carries) = (power_by(&c.bits), c.limbs, c.carries);
    let zero = Fe::ZERO;
    let x0 = shifted(power, old.x0, zero, carries.x0);
    let x1 = shifted(power, old.x1, carries.x0, carries.x1);
    let x2 = shifted(power, old.x2, carries.x1, carries.x2);
    let x3 = shifted(power, old.x3, carries.x2, carries.x3);
    [
        gated(gate, limbs.x0, new.x0, x0),
        gated(gate, limbs.x0, new.x1, x1),
        gated(gate, limbs.x0, new.x2, x2),
        gated(gate, limbs.x0, new.x3, x3),
        gated(gate, limbs.x1, new.x0, zero),
        gated(gate, limbs.x1, new.x1, x0),
        gated(gate, limbs.x1, new.x2, x1),
        gated(gate, limbs.x1, new.x3, x2),
        gated(gate, limbs.x2, new.x0, zero),
        gated(gate, limbs.x2, new.x1, zero),
        gated(gate, limbs.x2, new.x2, x0),
        gated(gate, limbs.x2, new.x3, x1),
        gated(gate, limbs.x3, new.x0, zero),
        gated(gate, limbs.x3, new.x1, zero),
        gated(gate, limbs.x3, new.x2, zero),
        gated(gate, limbs.x3, new.x3, x0),
    ]
}

/// gate * limb * (T * a - b + c - 256 * next)
fn gated_right(gate: Fe, limb: Fe, power: Fe, a: Fe, b: Fe, c: Fe, next: Fe) -> Fe
    ensures { result ≡ field_mul (field_mul gate limb) (field_sub (field_add (field_sub (field_mul power a) b) c) (field_mul 256 next)) }
{
    gate.mul(limb)
        .mul(power.mul(a).sub(b).add(c).sub(Fe::of_u16(256).mul(next)))
}

/// Under the gate `new` is `old` shifted to the right, where bits `sign` come in.
pub fn right_constraints(gate: Fe, sign: Fe, own: &[Fe], old: &Limbs, new: &Limbs) -> [Fe; 16]
    requires { 16 ≤ length own.now }
    ensures { result ≡ right_constraints field gate sign (shift_columns field own.now) old.now new.now }
{
    let c = Columns::read(own);
    let power = power_by(&c.bits);
    let top = sign.mul(power.sub(Fe::ONE));
    let full = Fe::of_u16(255).mul(sign);
    let (a, b, k, l) = (new, old, c.carries, c.limbs);
    [
        gated_right(gate, l.x0, power, a.x0, b.x0, k.x0, k.x1),
        gated_right(gate, l.x0, power, a.x1, b.x1, k.x1, k.x2),
        gated_right(gate, l.x0, power, a.x2, b.x2, k.x2, k.x3),
        gated_right(gate, l.x0, power, a.x3, b.x3, k.x3, top),
        gated_right(gate, l.x1, power, a.x0, b.x1, k.x1, k.x2),
        gated_right(gate, l.x1, power, a.x1, b.x2, k.x2, k.x3),
        gated_right(gate, l.x1, power, a.x2, b.x3, k.x3, top),
        gated(gate, l.x1, a.x3, full),
        gated_right(gate, l.x2, power, a.x0, b.x2, k.x2, k.x3),
        gated_right(gate, l.x2, power, a.x1, b.x3, k.x3, top),
        gated(gate, l.x2, a.x2, full),
        gated(gate, l.x2, a.x3, full),
        gated_right(gate, l.x3, power, a.x0, b.x3, k.x3, top),
        gated(gate, l.x3, a.x1, full),
        gated(gate, l.x3, a.x2, full),
        gated(gate, l.x3, a.x3, full),
    ]
}
