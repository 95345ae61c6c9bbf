// What the fixed tables receive.
ghost use Rattle.std.specs.Prelude.{◌≡◌, ◌≤◌, OnOk};
ghost use Rattle.air_core.specs.Sink.{Handed};
ghost use Rattle.acceptance.specs.Events.{entry_events, fixed_row};

use air_core::bus::PROGRAM;
use air_core::{Event, EventSink, OutOfMemory, Side, Tuple};
use lookup_tables::tuple_at;
use vm_trace::CountEntry;
use vm_transpile::Program;

// The row at a place of the fixed table of a bus.
fn fixed_row(program: &Program, bus: u8, place: u32) -> Option<Tuple>
    ensures { result ≡ fixed_row program.now bus place }
{
    if bus == PROGRAM {
        program.at(place).map(|row| Tuple::of(&row.numbers()))
    } else {
        tuple_at(bus, place)
    }
}

/// Receives the row at an entry's place as often as the entry says; nothing where there is none.
pub(crate) fn hand_entry<S: EventSink>(
    program: &Program,
    bus: u8,
    entry: &CountEntry,
    sink: &mut S,
) -> Result<(), OutOfMemory>
    requires { 1 ≤ S.room sink.old }
    ensures { OnOk result (Handed S.holds S.room sink.old sink.new (entry_events program.now bus entry.now)) }
{
    match fixed_row(program, bus, entry.place) {
        Some(tuple) => sink.take(&Event {
            bus,
            side: Side::Receive,
            tuple,
            count: entry.count,
        }),
        None => Ok(()),
    }
}
