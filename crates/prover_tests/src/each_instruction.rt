//! One segment with steps of each instruction: the rows of all tables, their heights, and the counts of the program's
//! rows. Which table has which opcodes was put down by hand.

use crate::records::{are_bytes, records_of_steps};
use elf_image::read_image;
use std::process::Abort;
use std::test::Fail;
use vm_config::full;
use vm_executor::{Machine, StepRecord};
use vm_field::Fe;
use vm_filler::fill_segment;
use vm_trace::{CountList, Tables};
use vm_transpile::transpile;
use vm_vectors::elf_of;
use vm_vectors::programs::{EACH_INSTRUCTION, HINT_BYTES};

/// The first and the last opcode of each table, and how many rows a step of them has.
const OPCODES: [(u8, u8, u32); 17] = [
    (1, 5, 1),
    (6, 7, 1),
    (8, 10, 1),
    (11, 15, 1),
    (16, 18, 1),
    (19, 20, 1),
    (21, 24, 1),
    (25, 26, 1),
    (28, 28, 1),
    (27, 27, 1),
    (39, 39, 1),
    (29, 32, 1),
    (33, 36, 1),
    (37, 37, 1),
    (38, 38, 1),
    // SHA blocks, and their rounds
    (40, 40, 1),
    (40, 40, 64),
];

fn begins_with(row: &[Fe], numbers: &[u32]) -> bool {
    row.len() > numbers.len()
        && row
            .iter()
            .zip(numbers)
            .all(|(element, number)| element.value() == *number)
}

// A row is that of a step, whose pc and time stand first. That of a round has a flag, the time and the round.
fn is_row_of(row: &[Fe], record: &StepRecord, each: u32, place: u32) -> bool {
    if each == 1 {
        begins_with(row, &[record.instr.pc, record.time])
    } else {
        begins_with(row, &[1, record.time, place])
    }
}

// The rows of a table are those of its steps in their order, and then zeros up to the least power of two.
fn same_rows<R: Abort>(
    rt: &R,
    tables: &Tables,
    table: u32,
    records: &[StepRecord],
    opcodes: (u8, u8, u32),
) {
    let (first, last, each) = opcodes;
    let mut rows = 0u32;
    for record in records {
        if first <= record.instr.op && record.instr.op <= last {
            for place in 0..each {
                let Some(row) = tables.row(table, rows) else {
                    panic!(rt; "table {table} has no row {rows}");
                };
                let same = is_row_of(row, record, each, place);
                assert!(rt; same, "table {table}, row {rows}");
                rows = rows.saturating_add(1);
            }
        }
    }
    assert!(rt; table < tables.tables());
    let height = tables.height(table);
    assert!(rt; height.is_power_of_two() && rows <= height, "table {table}");
    assert!(rt; height / 2 < rows, "table {table}");
    for place in rows..height {
        let Some(row) = tables.row(table, place) else {
            panic!(rt; "table {table} has no row {place}");
        };
        let zeros = row.iter().all(|element| element.value() == 0);
        assert!(rt; zeros, "table {table}, row {place}");
    }
}

// How many steps are at a pc.
fn steps_at(records: &[StepRecord], pc: u32) -> u32 {
    let mut count = 0u32;
    for record in records {
        if record.instr.pc == pc {
            count = count.saturating_add(1);
        }
    }
    count
}

#[test]
fn each_instruction(rt: HostRuntime) -> Result<(), Fail> {
    let alloc = rt.alloc();
    let image = read_image(alloc, &elf_of(alloc, 0x1000, &EACH_INSTRUCTION)?)?;
    let program = transpile(alloc, &image)?;
    program.rows_are_in_range();
    let hints = HINT_BYTES[..8].to_vec(alloc)?;
    are_bytes(&hints);
    let mut machine = Machine::new(alloc, &program, &image, hints);
    let records = records_of_steps(alloc, &mut machine, 100)?;
    assert_eq!(rt; records.len(), 81);
    for op in 1..=40u8 {
        let stands = records.iter().any(|record| record.instr.op == op);
        assert!(rt; stands, "opcode {op}");
    }
    let tables = fill_segment(alloc, &full(), &program, &records)?;
    assert_eq!(rt; tables.tables(), 17);
    let mut table = 0u32;
    for opcodes in OPCODES {
        same_rows(&rt, &tables, table, &records, opcodes);
        table = table.saturating_add(1);
    }
    let mut counts = Vec::new(alloc);
    for place in 0..program.len() {
        if let Some(row) = program.at(place) {
            let count = steps_at(&records, row.pc);
            if count > 0 {
                counts.push((place, count))?;
            }
        }
    }
    let entries = tables.counts(CountList::Program);
    assert_eq!(rt; entries.len(), counts.len());
    for (entry, count) in entries.iter().zip(&counts) {
        assert_eq!(rt; (entry.place, entry.count), *count);
    }
    Ok(())
}
