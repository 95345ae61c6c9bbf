//! Filled rows, by hand and of edge words.

ghost use Rattle.std.specs.Prelude.{◌≡◌, true};
ghost use Rattle.vm_isa.specs.Opcodes.{is_from};

use crate::{Mul, MulAt};
use adapter_regs::records::{Operation, step};
use air_core::{Chip, Event, EventList, Extension, Single, Tuple, bus};
use std::alloc::Global;
use std::test::Fail;
use vm_field::Fe;
use vm_isa::{OutOfMemory, opcode};

/// What a row breaks first: a constraint, or the lookup at a place of its events.
#[derive(Clone, Copy, Debug, PartialEq, Eq)]
enum Refusal {
    Nothing,
    Constraint(u32),
    Lookup(usize),
}

/// Whether a lookup stands in the xor or in the range table; events of other buses are none.
fn is_good(event: &Event) -> bool {
    let x = event.tuple.at(0).unwrap_or(0);
    let y = event.tuple.at(1).unwrap_or(0);
    match event.bus {
        bus::XOR => x < 256 && y < 256 && event.tuple == Tuple::of(&[x, y, x ^ y]),
        bus::RANGE => y <= 16 && x < 1 << y.min(16),
        _ => true,
    }
}

fn refusal_of(alloc: Global, row: &[Fe; 40]) -> Result<Refusal, OutOfMemory> {
    if let Some(place) = Mul::new().first_broken(row) {
        return Ok(Refusal::Constraint(place));
    }
    let mut list = EventList::new(alloc);
    Mul::new().events(row, &mut list)?;
    for (place, event) in list.as_slice().iter().enumerate() {
        if !is_good(event) {
            return Ok(Refusal::Lookup(place));
        }
    }
    Ok(Refusal::Nothing)
}

fn filled(alloc: Global, op: u8, left: u32, right: u32) -> Result<[Fe; 40], OutOfMemory>
    requires owned { is_from 29 32 op ≡ true }
{
    let operation = Operation {
        op,
        left,
        right,
        use_imm: false,
        rd: 5,
    };
    let done = step(alloc, 70000, &operation)?;
    let mut row = [Fe::ZERO; 40];
    Mul::new().fill(&done, 0, &mut row);
    Ok(row)
}

/// The product in the columns of its limbs.
fn product_in(row: &[Fe; 40]) -> u64 {
    let mut number = 0u64;
    for i in 0..8 {
        let limb = row[28 - i].value() as u64;
        number = number.wrapping_mul(256).wrapping_add(limb);
    }
    number
}

/// The whole product modulo 2^64, by Rust's own arithmetic.
fn product(op: u8, left: u32, right: u32) -> u64 {
    let signed = |word: u32| i64::from(word.cast_signed()).cast_unsigned();
    let unsigned = |word: u32| u64::from(word);
    match op {
        opcode::MULH => signed(left).wrapping_mul(signed(right)),
        opcode::MULHSU => signed(left).wrapping_mul(unsigned(right)),
        _ => unsigned(left).wrapping_mul(unsigned(right)),
    }
}

/// The square of FFFFFFFF, with the first word as -1: low 1, high FFFFFFFF, signs 1 and 0. A cell with
/// another value breaks what a hand finds. No sign is looked up of the second word, so the carries are events 16 on.
#[test]
fn by_hand(rt: HostRuntime) -> Result<(), Fail> {
    let row = filled(rt.alloc(), opcode::MULHSU, 0xFFFF_FFFF, 0xFFFF_FFFF)?;
    let own = [1, 0, 0, 0, 255, 255, 255, 255, 1, 0];
    for i in 0..10 {
        assert_eq!(rt; row[21 + i].value(), own[i], "column {i}");
    }
    assert_eq!(rt; refusal_of(rt.alloc(), &row)?, Refusal::Nothing);
    for (column, value, refusal) in [
        (4, 2, Refusal::Constraint(2)),
        (9, 254, Refusal::Lookup(16)),
        (21, 2, Refusal::Lookup(16)),
        (25, 0, Refusal::Lookup(20)),
        (29, 2, Refusal::Constraint(5)),
        (29, 0, Refusal::Lookup(15)),
        (30, 1, Refusal::Constraint(8)),
    ] {
        let mut changed = row;
        changed[column] = Fe::of_u16(value);
        let found = refusal_of(rt.alloc(), &changed)?;
        assert_eq!(rt; found, refusal, "column {column}");
    }
    Ok(())
}

/// All pairs of edge words, by each opcode: the rows hold, and have Rust's products.
#[test]
fn filled_rows(rt: HostRuntime) -> Result<(), Fail> {
    let words = [
        0,
        1,
        2,
        7,
        0x7FFF_FFFF,
        0x8000_0000,
        0x8000_0001,
        0xFFFF_FFFF,
        0x1234_5678,
    ];
    for op in 29..=32 {
        for left in &words {
            for right in &words {
                let row = filled(rt.alloc(), op, *left, *right)?;
                let name = (op, *left, *right);
                assert_eq!(rt; product_in(&row), product(op, *left, *right), "{name:?}");
                assert_eq!(rt; refusal_of(rt.alloc(), &row)?, Refusal::Nothing, "{name:?}");
            }
        }
    }
    Ok(())
}

#[test]
fn as_an_extension(rt: HostRuntime) -> Result<(), Fail> {
    let ext = Single::new(Mul::new());
    assert_eq!(rt; (ext.tables(), ext.width(0), ext.slots(0)), (1, 40, 3));
    assert_eq!(rt; [ext.time_bits(), MulAt::<13>::new().time_bits()], [24, 29]);
    Ok(())
}
