//! One row for each flag, at both ends of memory, rows at the edges, and what one changed cell breaks. Words are by
//! hand: the block is 0x84c37281, and the stored word 0xa1b2c3d4.

ghost use Rattle.std.specs.Prelude.{◌≡◌, ◌≤◌, ◌<◌, length};

use crate::rows::{Refusal, put_row, said};
use crate::steps::{Words, hint, load, reveal, store};
use air_core::{Chip, Event, EventList, Extension, HintWord, Side, Single, Tuple, bus};
use chip_io::{Hint, HintAt, HintCore, Nop, RevealAt, RevealChip, RevealCore};
use chip_load::{LoadAt, LoadChip, LoadCore};
use chip_store::{StoreAt, StoreChip, StoreCore};
use std::test::Fail;
use vm_field::Fe;
use vm_isa::opcode;
use vm_word::limbs;

/// One cell of a good row set to a number, and what it breaks.
#[derive(Clone, Copy)]
struct Change {
    column: usize,
    number: u16,
    refusal: Refusal,
}

macro_rules! change {
    ($column:expr, $number:expr, $refusal:expr) => {
        Change {
            column: $column,
            number: $number,
            refusal: $refusal,
        }
    };
}

/// The flag of an opcode at a place of a block, the word that it leaves, and what breaks its row at the last block.
struct Case {
    op: u8,
    shift: u32,
    new: u32,
    change: Change,
}

macro_rules! case {
    ($op:expr, $shift:expr, $new:expr, $column:expr, $number:expr, $refusal:expr) => {
        Case {
            op: $op,
            shift: $shift,
            new: $new,
            change: change!($column, $number, $refusal),
        }
    };
}

/// A byte of the block that has a sign, columns 26 to 29, gets the other top bit; what has none gets one, column 36.
const LOADS: [Case; 13] = [
    case!(opcode::LB, 0, 0xFFFF_FF81, 26, 0x01, Refusal::Lookup(17)),
    case!(opcode::LB, 1, 0x72, 27, 0xF2, Refusal::Lookup(17)),
    case!(opcode::LB, 2, 0xFFFF_FFC3, 28, 0x43, Refusal::Lookup(17)),
    case!(opcode::LB, 3, 0xFFFF_FF84, 29, 0x04, Refusal::Lookup(17)),
    case!(opcode::LH, 0, 0x7281, 27, 0xF2, Refusal::Lookup(17)),
    case!(opcode::LH, 2, 0xFFFF_84C3, 29, 0x04, Refusal::Lookup(17)),
    case!(opcode::LW, 0, 0x84C3_7281, 36, 1, Refusal::Constraint(17)),
    case!(opcode::LBU, 0, 0x81, 36, 1, Refusal::Constraint(17)),
    case!(opcode::LBU, 1, 0x72, 36, 1, Refusal::Constraint(17)),
    case!(opcode::LBU, 2, 0xC3, 36, 1, Refusal::Constraint(17)),
    case!(opcode::LBU, 3, 0x84, 36, 1, Refusal::Constraint(17)),
    case!(opcode::LHU, 0, 0x7281, 36, 1, Refusal::Constraint(17)),
    case!(opcode::LHU, 2, 0x84C3, 36, 1, Refusal::Constraint(17)),
];

/// The base, the low half of the address, the immediate, the high half, and the time before of each access.
const STORES: [Case; 7] = [
    case!(opcode::SB, 0, 0x84C3_72D4, 15, 1, Refusal::Constraint(8)),
    case!(opcode::SB, 1, 0x84C3_D481, 27, 9, Refusal::Constraint(8)),
    case!(opcode::SB, 2, 0x84D4_7281, 14, 0xFE, Refusal::Constraint(9)),
    case!(opcode::SB, 3, 0xD4C3_7281, 28, 8190, Refusal::Constraint(9)),
    case!(opcode::SH, 0, 0x84C3_C3D4, 29, 91, Refusal::Constraint(10)),
    case!(opcode::SH, 2, 0xC3D4_7281, 32, 91, Refusal::Constraint(11)),
    case!(opcode::SW, 0, 0xA1B2_C3D4, 35, 91, Refusal::Constraint(12)),
];

const BLOCK: u32 = 0x84C3_7281;

const WORD: u32 = 0xA1B2_C3D4;

/// The base, the immediate of the first byte, and the pointer of the first block and of the last.
const ENDS: [(u32, u32, u32); 2] = [
    (0x1000, 0xFFFF_F000, 0),
    (0x2000_0000, 0xFFFF_FFFC, 536_870_908),
];

/// That a word is at a pointer of a space, at a time.
fn block(space: u32, pointer: u32, word: u32, time: u32) -> Event {
    let [a, b, c, d] = limbs(word);
    Event {
        bus: bus::MEMORY,
        side: Side::Send,
        tuple: Tuple::of(&[space, pointer, a as u32, b as u32, c as u32, d as u32, time]),
        count: 1,
    }
}

/// The event at a place.
fn at(list: &EventList, place: usize) -> Option<Event> {
    list.as_slice().get(place).copied()
}

/// Each flag's row is filled from its record, holds with good lookups, and leaves the word; the place of the flag is
/// that of the table.
#[test]
fn a_row_for_each_flag(rt: HostRuntime) -> Result<(), Fail> {
    for (base, imm, pointer) in &ENDS {
        for (flag, case) in LOADS.iter().enumerate() {
            let imm = imm.wrapping_add(case.shift);
            let done = load(rt.alloc(), case.op, true, *base, imm, BLOCK, case.new)?;
            let mut row = [Fe::ZERO; 46];
            assert_eq!(rt; put_row::<LoadCore>(&done, &mut row), Some(flag));
            let (refusal, list) = said(rt.alloc(), &LoadChip::new(), &row)?;
            assert_eq!(rt; refusal, Refusal::Nothing, "load {flag}");
            let kept = block(2, *pointer, BLOCK, 70001);
            assert_eq!(rt; at(&list, 8), Some(kept), "load {flag}");
            let written = block(1, 20, case.new, 70002);
            assert_eq!(rt; at(&list, 12), Some(written), "load {flag}");
        }
        for (flag, case) in STORES.iter().enumerate() {
            let imm = imm.wrapping_add(case.shift);
            let words = Words {
                old: BLOCK,
                new: case.new,
            };
            let done = store(rt.alloc(), case.op, *base, imm, WORD, words)?;
            let mut row = [Fe::ZERO; 38];
            assert_eq!(rt; put_row::<StoreCore>(&done, &mut row), Some(flag));
            let (refusal, list) = said(rt.alloc(), &StoreChip::new(), &row)?;
            assert_eq!(rt; refusal, Refusal::Nothing, "store {flag}");
            let written = block(2, *pointer, case.new, 70002);
            assert_eq!(rt; at(&list, 12), Some(written), "store {flag}");
        }
    }
    Ok(())
}

/// LB of the last byte of memory: base 20000000 and immediate -1 set the flag LB3, with the halves 65535 and 8191, and
/// the pointer is 536870908. A load into x0 says nothing of a third access. A store over the text at its own pc is one
/// like any other. An address of 2^29 is refused by its high half, and one of another flag by a fourth of the low half.
#[test]
fn edges(rt: HostRuntime) -> Result<(), Fail> {
    let done = load(
        rt.alloc(),
        opcode::LB,
        true,
        0x2000_0000,
        0xFFFF_FFFF,
        BLOCK,
        0xFFFF_FF84,
    )?;
    let mut row = [Fe::ZERO; 46];
    assert_eq!(rt; put_row::<LoadCore>(&done, &mut row), Some(3));
    assert_eq!(rt;
        [row[34].value(), row[35].value(), row[36].value()],
        [65535, 8191, 1]
    );
    let (_, list) = said(rt.alloc(), &LoadChip::new(), &row)?;
    let pointer = at(&list, 7).and_then(|event| event.tuple.at(1));
    assert_eq!(rt; pointer, Some(536_870_908));
    row[5] = Fe::ZERO;
    row[4] = Fe::ONE;
    let (refusal, _) = said(rt.alloc(), &LoadChip::new(), &row)?;
    assert_eq!(rt; refusal, Refusal::Lookup(15));

    let done = load(rt.alloc(), opcode::LW, false, 0, 0, BLOCK, BLOCK)?;
    assert_eq!(rt; put_row::<LoadCore>(&done, &mut row), Some(6));
    let (refusal, list) = said(rt.alloc(), &LoadChip::new(), &row)?;
    assert_eq!(rt; (refusal, list.as_slice().len()), (Refusal::Nothing, 13));

    let done = load(rt.alloc(), opcode::LW, false, 0x2000_0000, 0, BLOCK, BLOCK)?;
    assert_eq!(rt; put_row::<LoadCore>(&done, &mut row), Some(6));
    let (refusal, _) = said(rt.alloc(), &LoadChip::new(), &row)?;
    assert_eq!(rt; refusal, Refusal::Lookup(12));

    let words = Words {
        old: 0x0000_0013,
        new: WORD,
    };
    let done = store(rt.alloc(), opcode::SW, 0x1000, 0, WORD, words)?;
    let mut row = [Fe::ZERO; 38];
    assert_eq!(rt; put_row::<StoreCore>(&done, &mut row), Some(6));
    let (refusal, list) = said(rt.alloc(), &StoreChip::new(), &row)?;
    assert_eq!(rt; refusal, Refusal::Nothing);
    assert_eq!(rt; at(&list, 12), Some(block(2, 0x1000, WORD, 70002)));
    Ok(())
}

/// A hint and a reveal at the first block and at the last, and the word that a row takes of the host.
#[test]
fn hints_and_public_words(rt: HostRuntime) -> Result<(), Fail> {
    let words = Words {
        old: BLOCK,
        new: WORD,
    };
    for (base, imm, pointer) in &ENDS {
        let done = hint(rt.alloc(), opcode::HINT, *base, *imm, words)?;
        let mut row = [Fe::ZERO; 28];
        assert_eq!(rt; put_row::<HintCore>(&done, &mut row), Some(0));
        let (refusal, list) = said(rt.alloc(), &Hint::new(), &row)?;
        assert_eq!(rt; refusal, Refusal::Nothing);
        assert_eq!(rt; at(&list, 8), Some(block(2, *pointer, WORD, 70001)));
        let given = HintWord {
            time: row[1],
            word: [
                Fe::of_u16(0xD4),
                Fe::of_u16(0xC3),
                Fe::of_u16(0xB2),
                Fe::of_u16(0xA1),
            ],
            next: false,
        };
        assert_eq!(rt; Hint::new().hint(&row), Some(given));
        assert_eq!(rt; Hint::new().hint(&[Fe::ZERO; 28]), None);

        let done = reveal(rt.alloc(), opcode::REVEAL, *base, *imm, words)?;
        let mut row = [Fe::ZERO; 32];
        assert_eq!(rt; put_row::<RevealCore>(&done, &mut row), Some(0));
        let (refusal, list) = said(rt.alloc(), &RevealChip::new(), &row)?;
        assert_eq!(rt; refusal, Refusal::Nothing);
        assert_eq!(rt; at(&list, 12), Some(block(3, *pointer, WORD, 70002)));
        assert_eq!(rt; RevealChip::new().hint(&row), None);
    }
    Ok(())
}

/// Of LB3 at the last byte.
const OF_LOAD: [Change; 9] = [
    change!(2, 1, Refusal::Constraint(13)),
    change!(5, 2, Refusal::Constraint(3)),
    change!(22, 4, Refusal::Constraint(14)),
    change!(35, 8190, Refusal::Constraint(15)),
    change!(36, 2, Refusal::Constraint(16)),
    change!(36, 0, Refusal::Lookup(17)),
    change!(37, 89, Refusal::Constraint(18)),
    change!(40, 89, Refusal::Constraint(19)),
    change!(43, 89, Refusal::Constraint(20)),
];

/// Of SB3 there.
const OF_STORE: [Change; 7] = [
    change!(2, 1, Refusal::Constraint(7)),
    change!(5, 2, Refusal::Constraint(3)),
    change!(15, 4, Refusal::Constraint(8)),
    change!(28, 8190, Refusal::Constraint(9)),
    change!(29, 89, Refusal::Constraint(10)),
    change!(32, 89, Refusal::Constraint(11)),
    change!(35, 89, Refusal::Constraint(12)),
];

const OF_HINT: [Change; 6] = [
    change!(2, 2, Refusal::Constraint(0)),
    change!(8, 4, Refusal::Constraint(2)),
    change!(21, 8190, Refusal::Constraint(3)),
    change!(22, 89, Refusal::Constraint(4)),
    change!(25, 89, Refusal::Constraint(5)),
    change!(16, 256, Refusal::Lookup(13)),
];

const OF_REVEAL: [Change; 6] = [
    change!(2, 2, Refusal::Constraint(0)),
    change!(9, 4, Refusal::Constraint(2)),
    change!(22, 8190, Refusal::Constraint(3)),
    change!(23, 89, Refusal::Constraint(4)),
    change!(26, 89, Refusal::Constraint(5)),
    change!(29, 89, Refusal::Constraint(6)),
];

/// A flag that is 2: the constraint at its place breaks. No table has more than 64 flags.
fn twice(flag: usize) -> Change {
    let place = flag.min(64);
    change!(2 + place, 2, Refusal::Constraint(place as u32))
}

fn set(row: &mut [Fe], change: &Change)
    ensures { length row.new ≡ length row.old }
{
    if change.column < row.len() {
        row[change.column] = Fe::of_u16(change.number);
    }
}

/// The row of each flag breaks its flag's own constraint where that flag is 2, and what the table says of its cell.
#[test]
fn one_changed_cell_of_each_flag(rt: HostRuntime) -> Result<(), Fail> {
    let (base, last) = (0x2000_0000, 0xFFFF_FFFC_u32);
    for (flag, case) in LOADS.iter().enumerate() {
        let imm = last.wrapping_add(case.shift);
        let done = load(rt.alloc(), case.op, true, base, imm, BLOCK, case.new)?;
        for change in &[twice(flag), case.change] {
            let mut row = [Fe::ZERO; 46];
            assert_eq!(rt; put_row::<LoadCore>(&done, &mut row), Some(flag));
            set(&mut row, change);
            let (refusal, _) = said(rt.alloc(), &LoadChip::new(), &row)?;
            assert_eq!(rt; refusal, change.refusal, "load {flag}");
        }
    }
    for (flag, case) in STORES.iter().enumerate() {
        let imm = last.wrapping_add(case.shift);
        let words = Words {
            old: BLOCK,
            new: case.new,
        };
        let done = store(rt.alloc(), case.op, base, imm, WORD, words)?;
        for change in &[twice(flag), case.change] {
            let mut row = [Fe::ZERO; 38];
            assert_eq!(rt; put_row::<StoreCore>(&done, &mut row), Some(flag));
            set(&mut row, change);
            let (refusal, _) = said(rt.alloc(), &StoreChip::new(), &row)?;
            assert_eq!(rt; refusal, change.refusal, "store {flag}");
        }
    }
    Ok(())
}

#[test]
fn one_changed_cell(rt: HostRuntime) -> Result<(), Fail> {
    let (base, imm) = (0x2000_0000, 0xFFFF_FFFC);
    let last = 0xFFFF_FFFF;
    let new = 0xFFFF_FF84;
    let done = load(rt.alloc(), opcode::LB, true, base, last, BLOCK, new)?;
    for change in &OF_LOAD {
        let mut row = [Fe::ZERO; 46];
        assert_eq!(rt; put_row::<LoadCore>(&done, &mut row), Some(3));
        set(&mut row, change);
        let (refusal, _) = said(rt.alloc(), &LoadChip::new(), &row)?;
        assert_eq!(rt; refusal, change.refusal, "load {}", change.column);
    }
    let words = Words {
        old: BLOCK,
        new: 0xD4C3_7281,
    };
    let done = store(rt.alloc(), opcode::SB, base, last, WORD, words)?;
    for change in &OF_STORE {
        let mut row = [Fe::ZERO; 38];
        assert_eq!(rt; put_row::<StoreCore>(&done, &mut row), Some(3));
        set(&mut row, change);
        let (refusal, _) = said(rt.alloc(), &StoreChip::new(), &row)?;
        assert_eq!(rt; refusal, change.refusal, "store {}", change.column);
    }
    let done = hint(rt.alloc(), opcode::HINT, base, imm, words)?;
    for change in &OF_HINT {
        let mut row = [Fe::ZERO; 28];
        assert_eq!(rt; put_row::<HintCore>(&done, &mut row), Some(0));
        set(&mut row, change);
        let (refusal, _) = said(rt.alloc(), &Hint::new(), &row)?;
        assert_eq!(rt; refusal, change.refusal, "hint {}", change.column);
    }
    let done = reveal(rt.alloc(), opcode::REVEAL, base, imm, words)?;
    for change in &OF_REVEAL {
        let mut row = [Fe::ZERO; 32];
        assert_eq!(rt; put_row::<RevealCore>(&done, &mut row), Some(0));
        set(&mut row, change);
        let (refusal, _) = said(rt.alloc(), &RevealChip::new(), &row)?;
        assert_eq!(rt; refusal, change.refusal, "reveal {}", change.column);
    }
    Ok(())
}

#[test]
fn as_extensions(rt: HostRuntime) -> Result<(), Fail> {
    let ext = Single::new(LoadChip::new());
    let bits = LoadAt::<13>::new().time_bits();
    assert_eq!(rt; (ext.width(0), ext.slots(0), bits), (46, 3, 29));
    let ext = Single::new(StoreChip::new());
    let bits = StoreAt::<13>::new().time_bits();
    assert_eq!(rt; (ext.width(0), ext.slots(0), bits), (38, 3, 29));
    let ext = Single::new(Hint::new());
    let bits = HintAt::<13>::new().time_bits();
    assert_eq!(rt; (ext.width(0), ext.slots(0), bits), (28, 2, 29));
    let ext = Single::new(RevealChip::new());
    let bits = RevealAt::<13>::new().time_bits();
    assert_eq!(rt; (ext.width(0), ext.slots(0), bits), (32, 3, 29));
    let ext = Single::new(Nop::new());
    assert_eq!(rt; (ext.width(0), ext.slots(0)), (3, 1));
    Ok(())
}
