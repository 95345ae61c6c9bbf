// The counts of a segment's fixed tables, received as they are read.
ghost use Rattle.std.specs.Prelude.{◌≡◌, ◌*◌, ◌+◌, ◌^◌, ◌≤◌, length, true, OnOk};
ghost use Rattle.vm_host.specs.declared.Slot.TheVariants.{Second};
ghost use Rattle.air_core.specs.Sink.{Handed};
ghost use Rattle.acceptance.specs.Events.{received_on};
ghost use Rattle.table_format.specs.Order.{counts, entries};
ghost use Rattle.table_format.specs.Stream.{ReadsBy};
ghost use Rattle.vm_checker.specs.Heard.{Hears, room_left};
ghost use Rattle.vm_checker.specs.Kept.{counts_said};

use crate::fixed::hand_entry;
use crate::said::Said;
use air_core::bus::{PROGRAM, RANGE, SHA_CONSTANTS, XOR};
use readings::Stop;
use table_format::{Reason, Stream};
use vm_host::Host;
use vm_trace::{RANGE_ROWS, SHA_ROWS, XOR_ROWS};
use vm_transpile::Program;

// The list of a bus's table, which has so many rows.
fn take_entries<H: Host>(
    stream: &mut Stream,
    host: &mut H,
    program: &Program,
    said: &mut Said,
    bus: u8,
    end: u32,
) -> Result<(), Stop<Reason>>
    requires open { ((H.state host.old).input Second).is_open ≡ true }
    requires room { 2 ^ 32 ≤ room_left said.old }
    ensures left { OnOk result (room_left said.old ≤ room_left said.new + 2 ^ 32) }
    ensures reads { ReadsBy (entries end) (λ list unit. Handed Hears room_left said.old said.new (received_on program.now bus list))
        stream.old stream.new (H.state host.old) (H.state host.new) result }
{
    let count = stream.number(host)?;
    let mut least = 0;
    for _ in 0..count {
        let entry = stream.entry(host, end, least)?;
        least = entry.place + 1;
        hand_entry(program, bus, &entry, said)?;
    }
    Ok(())
}

/// The four lists.
pub(crate) fn take_counts<H: Host>(
    stream: &mut Stream,
    host: &mut H,
    program: &Program,
    said: &mut Said,
) -> Result<(), Stop<Reason>>
    requires open { ((H.state host.old).input Second).is_open ≡ true }
    requires room { 2 ^ 34 ≤ room_left said.old }
    ensures left { OnOk result (room_left said.old ≤ room_left said.new + 2 ^ 34) }
    ensures reads { ReadsBy (counts (length program.now)) (λ lists unit. Handed Hears room_left said.old said.new (counts_said program.now lists))
        stream.old stream.new (H.state host.old) (H.state host.new) result }
{
    take_entries(stream, host, program, said, PROGRAM, program.len())?;
    take_entries(stream, host, program, said, XOR, XOR_ROWS)?;
    take_entries(stream, host, program, said, RANGE, RANGE_ROWS)?;
    take_entries(stream, host, program, said, SHA_CONSTANTS, SHA_ROWS)?;
    Ok(())
}
