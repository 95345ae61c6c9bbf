//! Events handed over one by one, as they are made.

ghost use Rattle.air_core.specs.Ring.{field};
ghost use Rattle.std.specs.Prelude.{◌≡◌, ℕ, ◌+◌, ◌≤◌, [], ◌∷◌, ◌++◌, length, OnOk, OnErr};
ghost use Rattle.air_core.specs.Path.{path_lines};
ghost use Rattle.air_core.specs.Sheet.{counted, event, sent, received};
ghost use Rattle.air_core.specs.Sink.{Handed, HandedSome};

use crate::{EventSink, OutOfMemory, Side, bus};
use vm_field::Fe;

/// Hands over an event by its parts, unless its count is 0. Callers whose numbers want arithmetic test
/// the count before it: a row of zeros then costs next to nothing.
pub fn emit<S: EventSink>(
    bus: u8,
    side: Side,
    count: Fe,
    numbers: &[Fe],
    sink: &mut S,
) -> Result<(), OutOfMemory>
    requires few { length numbers.now ≤ 50 }
    requires room { 1 ≤ S.room sink.old }
    ensures ok { OnOk result (Handed S.holds S.room sink.old sink.new (counted (event bus side count numbers.now ∷ []))) }
    ensures err { OnErr result (HandedSome S.holds S.room sink.old sink.new (counted (event bus side count numbers.now ∷ []))) }
{
    if count == Fe::ZERO {
        Ok(())
    } else {
        sink.take_parts(bus, side, count.value(), numbers)
    }
}

/// What a row sends.
pub fn emit_sent<S: EventSink>(
    bus: u8,
    count: Fe,
    numbers: &[Fe],
    sink: &mut S,
) -> Result<(), OutOfMemory>
    requires few { length numbers.now ≤ 50 }
    requires room { 1 ≤ S.room sink.old }
    ensures ok { OnOk result (Handed S.holds S.room sink.old sink.new (counted (sent bus count numbers.now ∷ []))) }
    ensures err { OnErr result (HandedSome S.holds S.room sink.old sink.new (counted (sent bus count numbers.now ∷ []))) }
{
    emit(bus, Side::Send, count, numbers, sink)
}

/// What a row receives.
pub fn emit_received<S: EventSink>(
    bus: u8,
    count: Fe,
    numbers: &[Fe],
    sink: &mut S,
) -> Result<(), OutOfMemory>
    requires few { length numbers.now ≤ 50 }
    requires room { 1 ≤ S.room sink.old }
    ensures ok { OnOk result (Handed S.holds S.room sink.old sink.new (counted (received bus count numbers.now ∷ []))) }
    ensures err { OnErr result (HandedSome S.holds S.room sink.old sink.new (counted (received bus count numbers.now ∷ []))) }
{
    emit(bus, Side::Receive, count, numbers, sink)
}

/// The step from (pc, time) to (next, time + slots) on the execution bus, and the program row.
#[tactic(auto, unfolding(crate::specs::Path::path_lines))]
pub fn emit_path<S: EventSink>(
    valid: Fe,
    pc: Fe,
    time: Fe,
    next: Fe,
    slots: u16,
    numbers: &[Fe; 12],
    sink: &mut S,
) -> Result<(), OutOfMemory>
    requires room { 3 ≤ S.room sink.old }
    ensures ok { OnOk result (Handed S.holds S.room sink.old sink.new (counted (path_lines field valid pc time next slots numbers.now))) }
    ensures err { OnErr result (HandedSome S.holds S.room sink.old sink.new (counted (path_lines field valid pc time next slots numbers.now))) }
{
    emit_received(bus::EXECUTION, valid, &[pc, time], sink)?;
    emit_sent(
        bus::EXECUTION,
        valid,
        &[next, time.add(Fe::of_u16(slots))],
        sink,
    )?;
    emit_sent(bus::PROGRAM, valid, numbers, sink)
}
