//! Sums of words by their halves.

ghost use Rattle.air_core.specs.Ring.{field};
ghost use Rattle.std.specs.Prelude.{◌≡◌, ◌≤◌, length, OnOk, OnErr};
ghost use Rattle.air_core.specs.Flags.{sum_from};
ghost use Rattle.air_core.specs.Sheet.{counted};
ghost use Rattle.air_core.specs.Sink.{Handed, HandedSome};
ghost use Rattle.gadget_bits.specs.Sum.{lows, highs, half_carry, low_carry, high_carry, sum_lines};

use crate::halves::Halves;
use air_core::{EventSink, OutOfMemory, bus, element, emit_sent};
use vm_field::Fe;

fn low_sum(words: &[Halves]) -> Fe
    ensures { result ≡ sum_from field 0 (lows words.now) }
{
    let mut sum = Fe::ZERO;
    for word in words {
        sum = sum.add(word.lo);
    }
    sum
}

fn high_sum(words: &[Halves]) -> Fe
    ensures { result ≡ sum_from field 0 (highs words.now) }
{
    let mut sum = Fe::ZERO;
    for word in words {
        sum = sum.add(word.hi);
    }
    sum
}

/// (sum - half) / 65536
#[tactic(auto, unfolding(crate::specs::Sum::half_carry))]
pub fn half_carry(sum: Fe, half: Fe) -> Fe
    ensures { result ≡ half_carry field sum half }
{
    sum.sub(half).mul(element(2_013_235_201))
}

#[tactic(auto, unfolding(crate::specs::Sum::low_carry))]
fn low_carry(words: &[Halves], out: &Halves) -> Fe
    ensures { result ≡ low_carry field words.now out.now }
{
    half_carry(low_sum(words), out.lo)
}

#[tactic(auto, unfolding(crate::specs::Sum::high_carry))]
fn high_carry(words: &[Halves], low: Fe, out: &Halves) -> Fe
    requires { low ≡ low_carry field words.now out.now }
    ensures { result ≡ high_carry field words.now out.now }
{
    half_carry(high_sum(words).add(low), out.hi)
}

/// Hands over the lookups that make `out` the sum of at most seven words.
#[tactic(auto, unfolding(crate::specs::Sum::sum_lines))]
pub fn emit_sum<S: EventSink>(
    count: Fe,
    words: &[Halves],
    out: &Halves,
    sink: &mut S,
) -> Result<(), OutOfMemory>
    requires room { 4 ≤ S.room sink.old }
    ensures ok { OnOk result (Handed S.holds S.room sink.old sink.new (counted (sum_lines field count words.now out.now))) }
    ensures err { OnErr result (HandedSome S.holds S.room sink.old sink.new (counted (sum_lines field count words.now out.now))) }
{
    let low = low_carry(words, out);
    let high = high_carry(words, low, out);
    emit_sent(bus::RANGE, count, &[low, Fe::of_u16(3)], sink)?;
    emit_sent(bus::RANGE, count, &[high, Fe::of_u16(3)], sink)?;
    emit_sent(bus::RANGE, count, &[out.lo, Fe::of_u16(16)], sink)?;
    emit_sent(bus::RANGE, count, &[out.hi, Fe::of_u16(16)], sink)
}
