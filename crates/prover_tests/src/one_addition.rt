//! The tables of one ADDI, whose counts were put down by hand.

use crate::records::records_of_steps;
use elf_image::read_image;
use std::test::Fail;
use vm_config::full;
use vm_executor::Machine;
use vm_filler::fill_segment;
use vm_trace::{CountEntry, CountList};
use vm_transpile::transpile;
use vm_vectors::elf_of;

/// Each list, and its entries: a place, and how often its row is used.
const COUNTS: [(CountList, &'static [(u32, u32)]); 4] = [
    (CountList::Program, &[(0, 1)]),
    (CountList::Xor, &[(0, 3), (1799, 1)]),
    (CountList::Range, &[(255, 2), (65_535, 1), (65_537, 1)]),
    (CountList::ShaConst, &[]),
];

// ADDI x5, x0, 7 before a TERMINATE: x0 is read at time 1, and x5 written at time 3.
#[test]
fn one_addition(rt: HostRuntime) -> Result<(), Fail> {
    let alloc = rt.alloc();
    let image = read_image(alloc, &elf_of(alloc, 0x1000, &[0x0070_0293, 0x0000_000B])?)?;
    let program = transpile(alloc, &image)?;
    program.rows_are_in_range();
    let mut machine = Machine::new(alloc, &program, &image, Vec::new(alloc));
    let records = records_of_steps(alloc, &mut machine, 1)?;
    let tables = fill_segment(alloc, &full(), &program, &records)?;
    for table in 0..tables.tables() {
        let height = if table == 0 { 1 } else { 0 };
        assert_eq!(rt; tables.height(table), height, "table {table}");
    }
    for (list, counts) in COUNTS {
        let mut entries = Vec::new(alloc);
        for (place, count) in counts {
            entries.push(CountEntry {
                place: *place,
                count: *count,
            })?;
        }
        assert_eq!(rt; tables.counts(list), entries.as_slice());
    }
    Ok(())
}
