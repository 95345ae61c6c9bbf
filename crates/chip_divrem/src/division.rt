//! The constraints and lookups of a division.

ghost use Rattle.std.specs.Prelude.{◌≡◌, ◌≤◌, ◌<◌, ◌^◌, length, OnOk, OnErr};
ghost use Rattle.air_core.specs.First.{first_from};
ghost use Rattle.air_core.specs.Ring.{field};
ghost use Rattle.air_core.specs.Sheet.{counted};
ghost use Rattle.air_core.specs.Sink.{Handed, HandedSome};
ghost use Rattle.gadget_divide.specs.Divided.{divided_of};
ghost use Rattle.gadget_products.specs.Divide.{division_carries, division_top};
ghost use Rattle.chip_divrem.specs.DivRem.{divrem_constraints, divrem_lookups};

use air_core::{EventSink, OutOfMemory, first, first_nonzero};
use gadget_divide::{Divided, emit_divided, operands_broken, results_broken};
use gadget_limbs::emit_ranges;
use gadget_products::{Division, both, emit_carries};
use vm_field::{Fe, Limbs};

/// How many constraints there are.
pub const CONSTRAINTS: u32 = 60;

/// The carries and the top of the divisor's product with the quotient.
fn division(own: &[Fe]) -> Division
    requires { length own.now ≡ 35 }
    ensures carries { result.carries ≡ division_carries field (divided_of field own.now).dividend (divided_of field own.now).divisor (divided_of field own.now).quotient (divided_of field own.now).remainder }
    ensures top { result.top ≡ division_top field (divided_of field own.now).dividend (divided_of field own.now).divisor (divided_of field own.now).quotient (divided_of field own.now).remainder }
{
    let c = Divided::read(own);
    Division::new(c.dividend, c.divisor, c.quotient, c.remainder)
}

/// The place of the first broken constraint, where the first stands at the place `from`.
pub fn divrem_broken(
    from: u32,
    valid: Fe,
    gate: Fe,
    own: &[Fe],
    left: Limbs,
    right: Limbs,
) -> Option<u32>
    requires own { length own.now ≡ 35 }
    requires from { from < 2 ^ 17 }
    ensures { result ≡ first_from from (divrem_constraints field valid gate (divided_of field own.now) left right) }
{
    let operands = operands_broken(from, gate, own, left, &right);
    let top = first_nonzero(from + 25, &[division(own).top]);
    let results = results_broken(from + 26, valid, own);
    first(operands, first(top, results))
}

/// The signs, bytes, and the carries of the division.
pub fn emit_division<S: EventSink>(
    valid: Fe,
    gate: Fe,
    own: &[Fe],
    left: &Limbs,
    right: &Limbs,
    sink: &mut S,
) -> Result<(), OutOfMemory>
    requires own { length own.now ≡ 35 }
    requires room { 35 ≤ S.room sink.old }
    ensures ok { OnOk result (Handed S.holds S.room sink.old sink.new (counted (divrem_lookups field valid gate (divided_of field own.now) left.now right.now))) }
    ensures err { OnErr result (HandedSome S.holds S.room sink.old sink.new (counted (divrem_lookups field valid gate (divided_of field own.now) left.now right.now))) }
{
    let c = Divided::read(own);
    emit_divided(valid, gate, own, left, right, sink)?;
    emit_carries(valid, &division(own).carries, sink)?;
    emit_ranges(valid, Fe::of_u16(8), &both(c.quotient, c.remainder), sink)
}
