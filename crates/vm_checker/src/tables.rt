// The rows of a segment's tables, tested as they are read. None is kept.
ghost use Rattle.std.specs.Prelude.{◌≡◌, ◌+◌, ◌*◌, ◌^◌, ◌<◌, ◌≤◌, List, [], ◌∷◌, length, map, true, OnOk};
ghost use Rattle.std.specs.List.{AllByRecursion};
ghost use Rattle.vm_host.specs.declared.Slot.TheVariants.{Second};
ghost use Rattle.air_core.specs.declared.event.Event.{Event as AnEvent};
ghost use Rattle.air_core.specs.Sheet.{IsRow, row_events};
ghost use Rattle.air_core.specs.System.{EachRow, sheet_at};
ghost use Rattle.acceptance.specs.Events.{said_by_rows};
ghost use Rattle.table_format.specs.Stream.{ReadsBy};
ghost use Rattle.vm_checker.specs.Items.{row_of, rows_of, tables_of};
ghost use Rattle.vm_checker.specs.Heard.{Hears, room_left};
ghost use Rattle.vm_checker.specs.Kept.{Tallied};

use crate::heights::height;
use crate::tally::Tally;
use air_core::{Extension, RowError};
use readings::Stop;
use std::alloc::Global;
use table_format::{Reason, Stream};
use vm_field::Fe;
use vm_host::Host;

// A row on which each constraint holds, and what it says.
fn take_row<E: Extension, H: Host>(
    stream: &mut Stream,
    host: &mut H,
    ext: &E,
    buffer: &mut Vec<Fe>,
    tally: &mut Tally,
    segment: u32,
    table: u32,
    width: u32,
    place: u32,
) -> Result<(), Stop<Reason>>
    requires open { ((H.state host.old).input Second).is_open ≡ true }
    requires known { table < length (E.system ext.now).parts }
    requires wide { width ≡ (sheet_at (E.system ext.now) table).width }
    requires room { 256 ≤ room_left tally.old.said }
    requires counted { tally.old.valid + 1 < 2 ^ 64 }
    requires heard { (events : List AnEvent) × Hears tally.old.said events }
    ensures { ReadsBy (row_of (E.system ext.now) segment table place)
        (λ row unit. Tallied (IsRow (sheet_at (E.system ext.now) table) row) (row_events (sheet_at (E.system ext.now) table) row ∷ []) tally.old tally.new)
        stream.old stream.new (H.state host.old) (H.state host.new) result }
{
    stream.row(host, buffer, width)?;
    match tally.add(ext, table, buffer) {
        Ok(()) => Ok(()),
        Err(RowError::Broken(constraint)) => Err(Stop::Refused(Reason::Row {
            segment,
            table,
            row: place,
            constraint,
        })),
        Err(RowError::OutOfMemory) => Err(Stop::OutOfMemory),
    }
}

// The rows of a table.
fn take_rows<E: Extension, H: Host>(
    stream: &mut Stream,
    host: &mut H,
    ext: &E,
    buffer: &mut Vec<Fe>,
    tally: &mut Tally,
    segment: u32,
    table: u32,
    height: u32,
) -> Result<(), Stop<Reason>>
    requires open { ((H.state host.old).input Second).is_open ≡ true }
    requires known { table < length (E.system ext.now).parts }
    requires room { 256 * height ≤ room_left tally.old.said }
    requires counted { tally.old.valid + height < 2 ^ 64 }
    requires heard { (events : List AnEvent) × Hears tally.old.said events }
    ensures left { OnOk result (room_left tally.old.said ≤ room_left tally.new.said + 256 * height) }
    ensures counted { OnOk result (tally.new.valid ≤ tally.old.valid + height) }
    ensures reads { ReadsBy (rows_of (E.system ext.now) segment table height)
        (λ rows unit. Tallied (AllByRecursion (IsRow (sheet_at (E.system ext.now) table)) rows) (map (row_events (sheet_at (E.system ext.now) table)) rows) tally.old tally.new)
        stream.old stream.new (H.state host.old) (H.state host.new) result }
{
    let width = ext.width(table);
    for place in 0..height {
        take_row(
            stream, host, ext, buffer, tally, segment, table, width, place,
        )?;
    }
    Ok(())
}

/// The rows of all tables, each of the height that its code stands for.
pub(crate) fn take_tables<E: Extension, H: Host>(
    alloc: Global,
    stream: &mut Stream,
    host: &mut H,
    ext: &E,
    codes: &[u8],
    tally: &mut Tally,
    segment: u32,
) -> Result<(), Stop<Reason>>
    requires open { ((H.state host.old).input Second).is_open ≡ true }
    requires number { length codes.now ≡ length (E.system ext.now).parts }
    requires low { AllByRecursion (λ code. code ≤ 25) codes.now }
    requires room { 2 ^ 64 ≤ room_left tally.old.said }
    requires counted { tally.old.valid ≡ 0 }
    requires heard { (events : List AnEvent) × Hears tally.old.said events }
    ensures left { OnOk result (room_left tally.old.said ≤ room_left tally.new.said + 2 ^ 64) }
    ensures reads { ReadsBy (tables_of (E.system ext.now) segment codes.now)
        (λ tables unit. Tallied (EachRow IsRow (E.system ext.now).parts tables) (said_by_rows (E.system ext.now).parts tables) tally.old tally.new)
        stream.old stream.new (H.state host.old) (H.state host.new) result }
{
    let mut buffer = Vec::new(alloc);
    for table in 0..ext.tables() {
        let height = height(codes[table as usize]);
        take_rows(
            stream,
            host,
            ext,
            &mut buffer,
            tally,
            segment,
            table,
            height,
        )?;
    }
    Ok(())
}
