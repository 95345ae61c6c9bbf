//! What accesses say, handed over as it is made, and the constraints of their times.

ghost use Rattle.air_core.specs.Ring.{field};
ghost use Rattle.std.specs.Prelude.{◌≡◌, ℕ, ◌+◌, ◌*◌, ◌<◌, ◌≤◌, ◌^◌, [], ◌∷◌, ◌++◌, length, map, OnOk, OnErr};
ghost use Rattle.air_core.specs.First.{first_from};
ghost use Rattle.air_core.specs.Sheet.{counted};
ghost use Rattle.air_core.specs.Sink.{Handed, HandedSome};
ghost use Rattle.gadget_time.specs.Told.{touch_constraint, touch_lines, touches_lines};

use crate::touch::block;
use crate::{Touch, touch_constraint};
use air_core::{EventSink, OutOfMemory, bus, emit_received, emit_sent};
use vm_field::Fe;

/// The old word of an access leaves the memory bus, the new one comes, and what lies between is in range,
/// with `hi` bits above the lower 16.
#[tactic(auto, unfolding(crate::specs::Told::touch_lines))]
pub fn emit_touch<S: EventSink>(
    hi: u32,
    time: Fe,
    touch: &Touch,
    sink: &mut S,
) -> Result<(), OutOfMemory>
    requires high { hi ≤ 13 }
    requires room { 4 ≤ S.room sink.old }
    ensures ok { OnOk result (Handed S.holds S.room sink.old sink.new (counted (touch_lines field hi time touch.now))) }
    ensures err { OnErr result (HandedSome S.holds S.room sink.old sink.new (counted (touch_lines field hi time touch.now))) }
{
    let count = touch.count;
    let at = time.add(touch.slot);
    let taken = block(touch.space, touch.pointer, touch.old, touch.gap.before);
    let put = block(touch.space, touch.pointer, touch.new, at);
    emit_received(bus::MEMORY, count, &taken, sink)?;
    emit_sent(bus::MEMORY, count, &put, sink)?;
    emit_sent(bus::RANGE, count, &[touch.gap.lo, Fe::of_u16(16)], sink)?;
    emit_sent(
        bus::RANGE,
        count,
        &[touch.gap.hi, Fe::of_u16(hi as u16)],
        sink,
    )
}

/// The accesses of a row of this time, however many.
pub fn emit_touches<S: EventSink>(
    hi: u32,
    time: Fe,
    touches: &[Touch],
    sink: &mut S,
) -> Result<(), OutOfMemory>
    requires high { hi ≤ 13 }
    requires room { 4 * length touches.now ≤ S.room sink.old }
    ensures ok { OnOk result (Handed S.holds S.room sink.old sink.new (counted (touches_lines field hi time touches.now))) }
    ensures err { OnErr result (HandedSome S.holds S.room sink.old sink.new (counted (touches_lines field hi time touches.now))) }
{
    for touch in touches {
        emit_touch(hi, time, touch, sink)?;
    }
    Ok(())
}

/// The place of the first access whose constraint is broken, where that of the first stands at the place `from`.
pub fn touches_broken(from: u32, time: Fe, touches: &[Touch]) -> Option<u32>
    requires { from + length touches.now < 2 ^ 32 }
    ensures { result ≡ first_from from (map (touch_constraint field time) touches.now) }
{
    let mut place = from;
    for touch in touches {
        if touch_constraint(time, touch) != Fe::ZERO {
            return Some(place);
        }
        place += 1;
    }
    None
}
