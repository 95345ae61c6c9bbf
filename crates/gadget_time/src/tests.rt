//! Accesses after the one before and at its time, and rows of the no-operation, by hand.

ghost use Rattle.std.specs.Prelude.{◌≡◌, length};

use crate::{Gap, Nop, NopAt, Touch, emit_touch, gap_between, touch_constraint};
use air_core::{Chip, Event, EventList, Extension, OutOfMemory, Side, Single, Tuple, element};
use std::alloc::Global;
use std::test::Fail;
use vm_field::{Fe, Limbs, MODULUS};
use vm_isa::{AccessList, StepRecord, VmInstr, opcode};

fn touch(count: Fe, gap: Gap) -> Touch {
    Touch {
        count,
        slot: Fe::of_u16(2),
        space: Fe::ONE,
        pointer: Fe::of_u16(20),
        old: Limbs::of_bytes(&[1, 2, 3, 4]),
        new: Limbs::of_bytes(&[5, 6, 7, 8]),
        gap,
    }
}

/// The limbs of what lies between, and the constraint of such an access, of a row whose time is 70000.
fn filled(count: Fe, before: u32) -> (u32, u32, u32) {
    let access = touch(count, gap_between(70002, before));
    let zero = touch_constraint(element(70000), &access);
    (access.gap.lo.value(), access.gap.hi.value(), zero.value())
}

fn counted_event(bus: u8, side: Side, tuple: Tuple, count: u32) -> Event {
    Event {
        bus,
        side,
        tuple,
        count,
    }
}

fn event(bus: u8, side: Side, tuple: Tuple) -> Event {
    counted_event(bus, side, tuple, 1)
}

/// A row's time is 70000 and the slot 2. After an access at 1 there lie 70000 = 65536 + 4464 between. An
/// access at the same time is broken, unless its count is 0.
#[test]
fn times(rt: HostRuntime) -> Result<(), Fail> {
    assert_eq!(rt; filled(Fe::ONE, 1), (4464, 1, 0));
    assert_eq!(rt; filled(Fe::ONE, 70002), (0, 0, MODULUS - 1));
    assert_eq!(rt; filled(Fe::ZERO, 70002), (0, 0, 0));
    Ok(())
}

/// The four events, in the sheet's order, with the upper part in 8 bits and in 13; with a count of 0 none.
#[test]
fn events(rt: HostRuntime) -> Result<(), Fail> {
    let time = element(70000);
    let access = touch(Fe::ONE, gap_between(70002, 1));
    let wanted = [
        event(2, Side::Receive, Tuple::of(&[1, 20, 1, 2, 3, 4, 1])),
        event(2, Side::Send, Tuple::of(&[1, 20, 5, 6, 7, 8, 70002])),
        event(4, Side::Send, Tuple::of(&[4464, 16])),
        event(4, Side::Send, Tuple::of(&[1, 8])),
    ];
    let mut said = EventList::new(rt.alloc());
    emit_touch(8, time, &access, &mut said)?;
    assert_eq!(rt; said.as_slice(), wanted.as_slice());
    let none = touch(Fe::ZERO, gap_between(70002, 1));
    let mut said = EventList::new(rt.alloc());
    emit_touch(8, time, &none, &mut said)?;
    assert_eq!(rt; said.as_slice().len(), 0);
    emit_touch(13, time, &access, &mut said)?;
    assert_eq!(rt;
        said.as_slice().get(3).copied(),
        Some(event(4, Side::Send, Tuple::of(&[1, 13])))
    );
    Ok(())
}

/// A row of the no-operation as numbers, and the constraint that it breaks. Where its flag is not
/// 0, it receives its pc and time, and sends `after` on bus 0 and its pc and `op` on bus 1.
struct Row {
    numbers: [u32; 3],
    broken: Option<u32>,
    after: [u32; 2],
    op: u32,
}

const ROWS: [Row; 6] = [
    Row {
        numbers: [0, 0, 0],
        broken: None,
        after: [0, 0],
        op: 0,
    },
    Row {
        numbers: [5, 7, 0],
        broken: None,
        after: [0, 0],
        op: 0,
    },
    Row {
        numbers: [4096, 1, 1],
        broken: None,
        after: [4100, 2],
        op: 39,
    },
    // Both the pc and the time wrap at the modulus.
    Row {
        numbers: [2_013_265_920, 2_013_265_920, 1],
        broken: None,
        after: [3, 0],
        op: 39,
    },
    // A flag that is neither 0 nor 1 breaks the row, which says its events all the same.
    Row {
        numbers: [4096, 1, 2],
        broken: Some(0),
        after: [4100, 2],
        op: 78,
    },
    Row {
        numbers: [4096, 1, 2_013_265_920],
        broken: Some(0),
        after: [4100, 2],
        op: 2_013_265_882,
    },
];

/// What a row of any table says.
fn events_of<C: Chip>(alloc: Global, chip: &C, row: &[Fe]) -> Result<EventList, OutOfMemory>
    requires { length row.now ≡ (C.sheet chip.now).width }
{
    let mut list = EventList::new(alloc);
    chip.events(row, &mut list)?;
    Ok(list)
}

#[test]
fn rows_of_the_no_operation(rt: HostRuntime) -> Result<(), Fail> {
    let nop = Nop::new();
    for row in &ROWS {
        let [pc, time, flag] = row.numbers;
        let cells = [
            Fe::new(pc).ok_or("pc")?,
            Fe::new(time).ok_or("time")?,
            Fe::new(flag).ok_or("flag")?,
        ];
        assert_eq!(rt; nop.first_broken(&cells), row.broken);
        assert_eq!(rt; nop.hint(&cells), None);
        let list = events_of(rt.alloc(), &nop, &cells)?;
        let program = [pc, row.op, 0, 0, 0, 0, 0, 0, 0, 0, 0, 0];
        let wanted = [
            counted_event(0, Side::Receive, Tuple::of(&[pc, time]), flag),
            counted_event(0, Side::Send, Tuple::of(&row.after), flag),
            counted_event(1, Side::Send, Tuple::of(&program), flag),
        ];
        let said: &[Event] = if flag == 0 { &[] } else { &wanted };
        assert_eq!(rt; list.as_slice(), said);
    }
    Ok(())
}

#[test]
fn the_table_of_the_no_operation(rt: HostRuntime) -> Result<(), Fail> {
    assert_eq!(rt; [Nop::WIDTH, Nop::SLOTS, Nop::ROWS], [3, 1, 1]);
    assert_eq!(rt; Nop::new().time_bits(), 24);
    assert_eq!(rt; NopAt::<13>::new().time_bits(), 29);
    for op in 0..=255 {
        assert_eq!(rt; Nop::new().owns(op), op == 39, "opcode {op}");
    }
    Ok(())
}

#[test]
fn the_row_of_a_step(rt: HostRuntime) -> Result<(), Fail> {
    let done = StepRecord {
        instr: VmInstr {
            pc: 4096,
            op: opcode::NOP,
            rd: 0,
            rs1: 0,
            rs2: 0,
            write: false,
            use_imm: false,
            imm: [0; 4],
            target: 0,
        },
        time: 1,
        accesses: AccessList::new(rt.alloc()),
        next: 4100,
    };
    let mut row = [Fe::ZERO; 3];
    Nop::new().fill(&done, 0, &mut row);
    assert_eq!(rt; row, [Fe::of_u16(4096), Fe::of_u16(1), Fe::ONE]);
    Ok(())
}

#[test]
fn the_no_operation_as_an_extension(rt: HostRuntime) -> Result<(), Fail> {
    let ext = Single::new(Nop::new());
    assert_eq!(rt; (ext.tables(), ext.width(0), ext.slots(0)), (1, 3, 1));
    assert_eq!(rt; [ext.owner(38), ext.owner(39)], [None, Some(0)]);
    let step = [Fe::of_u16(4096), Fe::ONE, Fe::ONE];
    assert_eq!(rt; ext.first_broken(0, &step), None);
    let mut list = EventList::new(rt.alloc());
    ext.events(0, &step, &mut list)?;
    assert_eq!(rt; list.as_slice().len(), 3);
    Ok(())
}
