//! The row of a record, and what a row breaks first.

ghost use Rattle.std.specs.Prelude.{◌≡◌, ◌≤◌, ◌<◌, ◌+◌, ◌^◌, length};
ghost use Rattle.adapter_mem.specs.Forms.{opcodes_of};

use adapter_mem::MemoryCore;
use air_core::{Chip, Event, EventList, OutOfMemory, bus, element};
use std::alloc::Global;
use vm_field::Fe;
use vm_isa::StepRecord;

/// What a row breaks first: a constraint, or the lookup at a place of its events.
#[derive(Clone, Copy, Debug, PartialEq, Eq)]
pub enum Refusal {
    Nothing,
    Constraint(u32),
    Lookup(usize),
}

/// Whether an event stands in its table, where that is of ranges or of the xor of two bytes.
fn is_good(event: &Event) -> bool {
    let first = event.tuple.at(0).unwrap_or(0);
    let second = event.tuple.at(1).unwrap_or(0);
    let third = event.tuple.at(2).unwrap_or(0);
    match event.bus {
        bus::RANGE => second <= 16 && first < 1 << second.min(16),
        bus::XOR => first < 256 && second < 256 && third == first ^ second,
        _ => true,
    }
}

/// The first lookup that isn't good, and the events of a row that breaks no constraint.
pub fn said<C: Chip>(
    alloc: Global,
    chip: &C,
    row: &[Fe],
) -> Result<(Refusal, EventList), OutOfMemory>
    requires { length row.now ≡ (C.sheet chip.now).width }
{
    let mut list = EventList::new(alloc);
    chip.events(row, &mut list)?;
    if let Some(place) = chip.first_broken(row) {
        return Ok((Refusal::Constraint(place), list));
    }
    let mut refusal = Refusal::Nothing;
    for (place, event) in list.as_slice().iter().enumerate() {
        if refusal == Refusal::Nothing && !is_good(event) {
            refusal = Refusal::Lookup(place);
        }
    }
    Ok((refusal, list))
}

/// Writes the row of a record; the place of its flag, where it is of an opcode of the table.
pub fn put_row<C: MemoryCore>(done: &StepRecord, row: &mut [Fe]) -> Option<usize>
    requires { length row.old ≡ 2 + length (opcodes_of C.table.forms) + C.table.width }
    ensures { length row.new ≡ length row.old }
{
    if !C::owns(done.instr.op) {
        return None;
    }
    let flags = C::FLAGS;
    let place = C::place(done);
    row.fill(Fe::ZERO);
    row[0] = element(done.instr.pc % (1 << 29));
    row[1] = element(done.time % (1 << 29));
    C::fill(done, &mut row[2 + flags..]);
    if place < flags {
        row[2 + place] = Fe::ONE;
    }
    Some(place)
}
