//! Carries from limb to limb.

ghost use Rattle.air_core.specs.Ring.{field};
ghost use Rattle.air_core.specs.Sheet.{counted};
ghost use Rattle.air_core.specs.Sink.{Handed, HandedSome};
ghost use Rattle.std.specs.Prelude.{◌≡◌, ◌≤◌, length, OnOk, OnErr};
ghost use Rattle.gadget_products.specs.Carry.{carry_out, carries, carry_lines};

use air_core::{EventSink, OutOfMemory};
use gadget_limbs::emit_ranges;
use vm_field::Fe;

/// (sum + carry - limb) / 256
#[tactic(auto, unfolding(crate::specs::Carry::carry_out))]
fn carry_out(sum: Fe, carry: Fe, limb: Fe) -> Fe
    ensures { result ≡ (carry_out field) sum carry limb }
{
    sum.add(carry).sub(limb).mul(Fe::INVERSE_OF_256)
}

/// The carries out of each limb, from the lowest on.
pub fn carries<const N: usize>(sums: &[Fe; N], limbs: &[Fe; N]) -> [Fe; N]
    ensures { result ≡ (carries field) 0 sums.now limbs.now }
{
    let mut all = [Fe::ZERO; N];
    let mut carry = Fe::ZERO;
    for i in 0..N {
        carry = carry_out(sums[i], carry, limbs[i]);
        all[i] = carry;
    }
    all
}

/// Looks carries up with 11 bits.
pub fn emit_carries<S: EventSink>(
    count: Fe,
    carries: &[Fe],
    sink: &mut S,
) -> Result<(), OutOfMemory>
    requires room { length carries.now ≤ S.room sink.old }
    ensures ok { OnOk result (Handed S.holds S.room sink.old sink.new (counted (carry_lines field count carries.now))) }
    ensures err { OnErr result (HandedSome S.holds S.room sink.old sink.new (counted (carry_lines field count carries.now))) }
{
    emit_ranges(count, Fe::of_u16(11), carries, sink)
}
