// The rows of tables.
ghost use Rattle.std.specs.Prelude.{◌≡◌, ℕ, ◌+◌, ◌*◌, ◌^◌, ◌<◌, ◌≤◌, List, [], length, map, replicate, flat_map, IfOk, OnOk, true};
ghost use Rattle.std.specs.List.{AllByRecursion};
ghost use Rattle.vm_isa.specs.Means.{Fillable};
ghost use Rattle.air_core.specs.Sheet.{row_events};
ghost use Rattle.air_core.specs.Sink.{Handed};
ghost use Rattle.air_core.specs.System.{sheet_at, part_at, is_owned, rows_of};
ghost use Rattle.vm_filler.specs.Tables.{filled_rows, IsHeight};
ghost use Rattle.vm_trace.specs.Contents.{empty, table_at};
ghost use Rattle.vm_filler.specs.Filling.{with_rows, AllFilled, KeepsOut, TableFilled};
ghost use Rattle.vm_filler.specs.Lookups.{CountLookups, events_left};

use crate::OutOfMemory;
use crate::lookups::Lookups;
use air_core::Extension;
use std::alloc::Global;
use vm_field::Fe;
use vm_isa::StepRecord;
use vm_trace::Tables;

// For each opcode, whether its records may fill rows of a table. One with slots takes those of its own opcodes alone.
fn taken_opcodes<E: Extension>(alloc: Global, ext: &E, table: u32) -> Result<Vec<bool>, OutOfMemory>
    requires known { table < length (E.system ext.now).parts }
    ensures size { IfOk result (λ takes. length takes.items ≡ 256) }
    ensures out { IfOk result (λ takes. KeepsOut (E.system ext.now) table takes.items) }
{
    let each = ext.slots(table) == 0;
    let mut takes = Vec::new(alloc);
    for op in 0..256u32 {
        takes.push(each || ext.owner(op as u8) == Some(table))?;
    }
    Ok(takes)
}

// Fills the rows of one record in a table, one after the other in `row`.
fn fill_record<E: Extension>(
    ext: &E,
    table: u32,
    takes: &[bool],
    done: &StepRecord,
    row: &mut [Fe],
    tables: &mut Tables,
    lookups: &mut Lookups,
) -> Result<(), OutOfMemory>
    requires known { table < length (E.system ext.now).parts }
    requires size { length takes.now ≡ 256 }
    requires out { KeepsOut (E.system ext.now) table takes.now }
    requires in_tables { table < length tables.old.tables }
    requires width { (table_at tables.old table).width ≡ (sheet_at (E.system ext.now) table).width }
    requires wide { length row.old ≡ (sheet_at (E.system ext.now) table).width }
    requires owned { is_owned (E.system ext.now).parts done.now.instr.op ≡ true }
    requires fillable { Fillable (E.system ext.now).time_bits done.now }
    requires few { length (table_at tables.old table).rows + 64 ≤ 2 ^ 24 }
    requires room { 2 ^ 14 ≤ events_left lookups.old }
    ensures rows { OnOk result (tables.new ≡ with_rows tables.old table (rows_of done.now (part_at (E.system ext.now) table))) }
    ensures counted { OnOk result (Handed CountLookups events_left lookups.old lookups.new
        (flat_map (row_events (sheet_at (E.system ext.now) table)) (rows_of done.now (part_at (E.system ext.now) table)))) }
    ensures wide { length row.new ≡ length row.old }
{
    if !takes[done.instr.op as usize] {
        return Ok(());
    }
    for place in 0..ext.rows_for(done, table) {
        ext.fill(done, table, place, row);
        tables.push_row(table, row)?;
        ext.events(table, row, lookups)?;
    }
    Ok(())
}

// The height of a table of so many rows.
fn height_of(rows: u32) -> u32
    requires { rows ≤ 2 ^ 23 }
    ensures { IsHeight rows result }
{
    if rows == 0 {
        0
    } else {
        rows.next_power_of_two()
    }
}

// Fills the rows of all records in a table.
fn fill_records<E: Extension>(
    ext: &E,
    table: u32,
    takes: &[bool],
    records: &[StepRecord],
    row: &mut [Fe],
    tables: &mut Tables,
    lookups: &mut Lookups,
) -> Result<(), OutOfMemory>
    requires known { table < length (E.system ext.now).parts }
    requires size { length takes.now ≡ 256 }
    requires out { KeepsOut (E.system ext.now) table takes.now }
    requires in_tables { table < length tables.old.tables }
    requires width { (table_at tables.old table).width ≡ (sheet_at (E.system ext.now) table).width }
    requires none { (table_at tables.old table).rows ≡ [] }
    requires wide { length row.old ≡ (sheet_at (E.system ext.now) table).width }
    requires few { length records.now ≤ 65536 }
    requires owned { AllByRecursion (λ d. is_owned (E.system ext.now).parts d.instr.op ≡ true) records.now }
    requires fillable { AllByRecursion (λ d. Fillable (E.system ext.now).time_bits d) records.now }
    requires room { 2 ^ 30 ≤ events_left lookups.old }
    ensures rows { OnOk result (tables.new ≡ with_rows tables.old table (filled_rows records.now (part_at (E.system ext.now) table))) }
    ensures counted { OnOk result (Handed CountLookups events_left lookups.old lookups.new
        (flat_map (row_events (sheet_at (E.system ext.now) table)) (filled_rows records.now (part_at (E.system ext.now) table)))) }
{
    for done in records {
        fill_record(ext, table, takes, done, row, tables, lookups)?;
    }
    Ok(())
}

// Puts rows of zeros behind the last row of a table, up to its height.
fn pad(table: u32, zeros: &[Fe], tables: &mut Tables) -> Result<(), OutOfMemory>
    requires in_tables { table < length tables.old.tables }
    requires wide { length zeros.now ≡ (table_at tables.old table).width }
    requires few { length (table_at tables.old table).rows ≤ 2 ^ 22 }
    ensures { OnOk result ((more : ℕ) × IsHeight (length (table_at tables.old table).rows) (length (table_at tables.old table).rows + more)
        × (tables.new ≡ with_rows tables.old table (replicate more zeros.now))) }
{
    let rows = tables.height(table);
    for _ in rows..height_of(rows) {
        tables.push_row(table, zeros)?;
    }
    Ok(())
}

// Fills a table that has no rows: those of the records, and then rows of zeros up to its height.
pub(crate) fn fill_table<E: Extension>(
    alloc: Global,
    ext: &E,
    table: u32,
    records: &[StepRecord],
    tables: &mut Tables,
    lookups: &mut Lookups,
) -> Result<(), OutOfMemory>
    requires known { table < length (E.system ext.now).parts }
    requires in_tables { table < length tables.old.tables }
    requires width { (table_at tables.old table).width ≡ (sheet_at (E.system ext.now) table).width }
    requires none { (table_at tables.old table).rows ≡ [] }
    requires few { length records.now ≤ 65536 }
    requires owned { AllByRecursion (λ d. is_owned (E.system ext.now).parts d.instr.op ≡ true) records.now }
    requires fillable { AllByRecursion (λ d. Fillable (E.system ext.now).time_bits d) records.now }
    requires room { 2 ^ 30 ≤ events_left lookups.old }
    ensures { OnOk result (TableFilled (E.system ext.now) records.now table tables.old tables.new lookups.old lookups.new) }
{
    let mut row = vec![in alloc; Fe::ZERO; ext.width(table) as usize]?;
    let zeros = vec![in alloc; Fe::ZERO; ext.width(table) as usize]?;
    let takes = taken_opcodes(alloc, ext, table)?;
    fill_records(ext, table, &takes, records, &mut row, tables, lookups)?;
    pad(table, &zeros, tables)?;
    Ok(())
}

// Tables of an extension, without rows.
fn without_rows<E: Extension>(alloc: Global, ext: &E) -> Result<Tables, OutOfMemory>
    ensures { IfOk result (λ made. made ≡ empty (map (λ p. p.sheet.width) (E.system ext.now).parts)) }
{
    let mut widths = Vec::new(alloc);
    for table in 0..ext.tables() {
        widths.push(ext.width(table))?;
    }
    Tables::new(alloc, &widths)
}

// Fills all tables of an extension.
pub(crate) fn fill_tables<E: Extension>(
    alloc: Global,
    ext: &E,
    records: &[StepRecord],
    lookups: &mut Lookups,
) -> Result<Tables, OutOfMemory>
    requires few { length records.now ≤ 65536 }
    requires owned { AllByRecursion (λ d. is_owned (E.system ext.now).parts d.instr.op ≡ true) records.now }
    requires fillable { AllByRecursion (λ d. Fillable (E.system ext.now).time_bits d) records.now }
    requires room { lookups.old.taken ≡ 0 }
    ensures { IfOk result (λ tables. AllFilled (E.system ext.now) records.now tables lookups.old lookups.new) }
{
    let mut tables = without_rows(alloc, ext)?;
    for table in 0..ext.tables() {
        fill_table(alloc, ext, table, records, &mut tables, lookups)?;
    }
    Ok(tables)
}
