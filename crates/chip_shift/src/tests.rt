//! Filled rows of every amount.

ghost use Rattle.std.specs.Prelude.{◌≡◌, ◌<◌, true};
ghost use Rattle.vm_isa.specs.Opcodes.{is_from};

use crate::Shift;
use adapter_regs::records::{Operation, step};
use air_core::{Chip, Event, EventList, Tuple, bus};
use std::alloc::Global;
use std::test::Fail;
use vm_field::Fe;
use vm_isa::{OutOfMemory, opcode};

/// Whether a lookup stands in the xor or in the range table; events of other buses are none.
fn is_good(event: &Event) -> bool {
    let x = event.tuple.at(0).unwrap_or(0);
    let y = event.tuple.at(1).unwrap_or(0);
    match event.bus {
        bus::XOR => x < 256 && y < 256 && event.tuple == Tuple::of(&[x, y, x ^ y]),
        bus::RANGE => y <= 16 && x < 1 << y.min(16),
        _ => true,
    }
}

/// Whether the constraints of a row are 0 and its lookups good.
fn holds(alloc: Global, row: &[Fe; 55]) -> Result<bool, OutOfMemory> {
    if Shift::new().first_broken(row).is_some() {
        return Ok(false);
    }
    let mut list = EventList::new(alloc);
    Shift::new().events(row, &mut list)?;
    Ok(list.as_slice().iter().all(is_good))
}

fn filled(
    alloc: Global,
    op: u8,
    left: u32,
    amount: u32,
    use_imm: bool,
) -> Result<[Fe; 55], OutOfMemory>
    requires owned { is_from 8 10 op ≡ true }
{
    let operation = Operation {
        op,
        left,
        right: amount,
        use_imm,
        rd: 5,
    };
    let done = step(alloc, 70000, &operation)?;
    let mut row = [Fe::ZERO; 55];
    Shift::new().fill(&done, 0, &mut row);
    Ok(row)
}

/// The new word of a row.
fn result_of(row: &[Fe; 55]) -> [u32; 4] {
    [
        row[42].value(),
        row[43].value(),
        row[44].value(),
        row[45].value(),
    ]
}

fn shifted(op: u8, left: u32, amount: u32) -> [u32; 4] {
    let by = amount % 32;
    let word = match op {
        opcode::SLL => left << by,
        opcode::SRL => left >> by,
        _ => (left.cast_signed() >> by).cast_unsigned(),
    };
    word.to_le_bytes().map(u32::from)
}

/// The low five bits of the amount count, also of a word above 31.
#[test]
fn every_amount(rt: HostRuntime) -> Result<(), Fail> {
    for op in 8..=10 {
        for left in [0, 1, 0x8000_0000, 0xFFFF_FFFF, 0x1234_5678] {
            for amount in 0..40 {
                let word = if amount < 32 {
                    amount
                } else {
                    amount * 0x0102_0305
                };
                let row = filled(rt.alloc(), op, left, word, amount % 2 == 0)?;
                assert!(rt; holds(rt.alloc(), &row)?, "{op} {left} {word}");
                assert_eq!(rt;
                    result_of(&row),
                    shifted(op, left, word),
                    "{op} {left} {word}"
                );
            }
        }
    }
    Ok(())
}

/// SRA of 89ABCDEF by 5: each of its own columns off by one is refused. (With whole limbs in the amount, the bits
/// that leave the word stand in no other constraint.)
#[test]
fn each_column_wrong(rt: HostRuntime) -> Result<(), Fail> {
    let row = filled(rt.alloc(), opcode::SRA, 0x89AB_CDEF, 5, false)?;
    assert!(rt; holds(rt.alloc(), &row)?);
    for column in 25..46 {
        let mut wrong = row;
        wrong[column] = wrong[column].add(Fe::ONE);
        assert!(rt; !holds(rt.alloc(), &wrong)?, "{column}");
    }
    Ok(())
}
