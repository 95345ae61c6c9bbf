//! The lookups of a shift.

ghost use Rattle.std.specs.Prelude.{◌≡◌, ◌≤◌, ◌∷◌, length, OnOk, OnErr};
ghost use Rattle.air_core.specs.Ring.{field};
ghost use Rattle.air_core.specs.Sheet.{counted};
ghost use Rattle.air_core.specs.Sink.{Handed, HandedSome};
ghost use Rattle.gadget_shift.specs.Shift.{amount_part, shift_columns, shift_lookups};

use crate::columns::{Columns, bits_by, limbs_by};
use air_core::{EventSink, OutOfMemory, element};
use gadget_limbs::emit_ranges;
use vm_field::{Fe, Limbs};

/// ((c - 8 * limbs) - bits) / 32
#[tactic(auto, unfolding(crate::specs::Shift::amount_part))]
fn amount_part(c: Fe, limbs: Fe, bits: Fe) -> Fe
    ensures { result ≡ amount_part field c limbs bits }
{
    c.sub(Fe::of_u16(8).mul(limbs))
        .sub(bits)
        .mul(element(1_950_351_361))
}

/// What is left of the lowest limb of the amount, the bits that cross limbs, and the limbs of the new word.
pub fn emit_shift<S: EventSink>(
    valid: Fe,
    amount: Fe,
    own: &[Fe],
    new: Limbs,
    sink: &mut S,
) -> Result<(), OutOfMemory>
    requires own { 16 ≤ length own.now }
    requires room { 9 ≤ S.room sink.old }
    ensures ok { OnOk result (Handed S.holds S.room sink.old sink.new (counted (shift_lookups field valid amount (shift_columns field own.now) new))) }
    ensures err { OnErr result (HandedSome S.holds S.room sink.old sink.new (counted (shift_lookups field valid amount (shift_columns field own.now) new))) }
{
    let c = Columns::read(own);
    let width = bits_by(&c.bits);
    let rest = amount_part(amount, limbs_by(c.limbs), width);
    emit_ranges(valid, Fe::of_u16(3), &[rest], sink)?;
    emit_ranges(valid, width, &c.carries.array(), sink)?;
    emit_ranges(valid, Fe::of_u16(8), &new.array(), sink)
}
