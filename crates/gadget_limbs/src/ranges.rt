//! Lookups of numbers in the range table.

ghost use Rattle.air_core.specs.Ring.{field};
ghost use Rattle.std.specs.Prelude.{◌≡◌, ◌≤◌, length, OnOk, OnErr};
ghost use Rattle.air_core.specs.Sheet.{counted};
ghost use Rattle.air_core.specs.Sink.{Handed, HandedSome};
ghost use Rattle.gadget_limbs.specs.Ranges.{range_lines};

use air_core::{EventSink, OutOfMemory, bus, emit_sent};
use vm_field::Fe;

/// Each number is looked up with so many bits, which are a number of the row too.
pub fn emit_ranges<S: EventSink>(
    count: Fe,
    bits: Fe,
    numbers: &[Fe],
    sink: &mut S,
) -> Result<(), OutOfMemory>
    requires room { length numbers.now ≤ S.room sink.old }
    ensures ok { OnOk result (Handed S.holds S.room sink.old sink.new (counted (range_lines field count bits numbers.now))) }
    ensures err { OnErr result (HandedSome S.holds S.room sink.old sink.new (counted (range_lines field count bits numbers.now))) }
{
    for number in numbers {
        emit_sent(bus::RANGE, count, &[*number, bits], sink)?;
    }
    Ok(())
}
