//! The lookups of a division beside its product.

ghost use Rattle.std.specs.Prelude.{◌≡◌, ◌≤◌, length, OnOk, OnErr};
ghost use Rattle.air_core.specs.Ring.{field};
ghost use Rattle.air_core.specs.Sheet.{counted};
ghost use Rattle.air_core.specs.Sink.{Handed, HandedSome};
ghost use Rattle.gadget_divide.specs.Divided.{divided_of, divided_bytes, divided_lookups};

use crate::Divided;
use air_core::{EventSink, OutOfMemory, bus, emit_sent};
use gadget_limbs::{emit_ranges, less_ranges, sign_looked_up};
use vm_field::{Fe, Limbs};

/// The distances from 0, the results with their signs, and what LT looks up.
#[tactic(auto, unfolding(crate::specs::Divided::divided_bytes, vm_field::specs::Limbs::list_of, gadget_limbs::specs::Less::less_ranges))]
fn divided_bytes(own: &[Fe]) -> [Fe; 19]
    requires { 35 ≤ length own.now }
    ensures { result ≡ divided_bytes field (divided_of field own.now) }
{
    let c = Divided::read(own);
    let (b, d, u, s) = (c.dividend, c.divisor, c.signed_quotient, c.signed_remainder);
    let order = less_ranges::<4>(Fe::ZERO, &c.less);
    [
        b.x0, b.x1, b.x2, b.x3, d.x0, d.x1, d.x2, d.x3, u.x0, u.x1, u.x2, u.x3, s.x0, s.x1, s.x2,
        s.x3, order[0], order[1], order[2],
    ]
}

/// The signs, under the gate, and the bytes.
pub fn emit_divided<S: EventSink>(
    valid: Fe,
    gate: Fe,
    own: &[Fe],
    left: &Limbs,
    right: &Limbs,
    sink: &mut S,
) -> Result<(), OutOfMemory>
    requires own { 35 ≤ length own.now }
    requires room { 21 ≤ S.room sink.old }
    ensures ok { OnOk result (Handed S.holds S.room sink.old sink.new (counted (divided_lookups field valid gate (divided_of field own.now) left.now right.now))) }
    ensures err { OnErr result (HandedSome S.holds S.room sink.old sink.new (counted (divided_lookups field valid gate (divided_of field own.now) left.now right.now))) }
{
    let c = Divided::read(own);
    let left_row = sign_looked_up(c.left_sign, left.x3);
    let right_row = sign_looked_up(c.right_sign, right.x3);
    emit_sent(bus::XOR, gate, &left_row, sink)?;
    emit_sent(bus::XOR, gate, &right_row, sink)?;
    emit_ranges(valid, Fe::of_u16(8), &divided_bytes(own), sink)
}
