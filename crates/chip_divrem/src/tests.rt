//! Filled rows, by hand and of edge words, and forged ones.

ghost use Rattle.std.specs.Prelude.{◌≡◌, ◌≢◌, true, length};
ghost use Rattle.vm_isa.specs.Opcodes.{is_from};

use crate::{DivRem, DivRemAt};
use adapter_regs::records::{Operation, step};
use air_core::{Chip, Event, EventList, Extension, Single, Tuple, bus};
use gadget_limbs::fill_less;
use std::alloc::Global;
use std::test::Fail;
use vm_field::Fe;
use vm_isa::{OutOfMemory, opcode};
use vm_word::limbs;

/// What a row breaks first: a constraint, or the lookup at a place of its events.
#[derive(Clone, Copy, Debug, PartialEq, Eq)]
enum Refusal {
    Nothing,
    Constraint(u32),
    Lookup(usize),
}

/// Whether a lookup stands in the xor or in the range table; events of other buses are none.
fn is_good(event: &Event) -> bool {
    let x = event.tuple.at(0).unwrap_or(0);
    let y = event.tuple.at(1).unwrap_or(0);
    match event.bus {
        bus::XOR => x < 256 && y < 256 && event.tuple == Tuple::of(&[x, y, x ^ y]),
        bus::RANGE => y <= 16 && x < 1 << y.min(16),
        _ => true,
    }
}

fn refusal_of(alloc: Global, row: &[Fe; 65]) -> Result<Refusal, OutOfMemory> {
    if let Some(place) = DivRem::new().first_broken(row) {
        return Ok(Refusal::Constraint(place));
    }
    let mut list = EventList::new(alloc);
    DivRem::new().events(row, &mut list)?;
    for (place, event) in list.as_slice().iter().enumerate() {
        if !is_good(event) {
            return Ok(Refusal::Lookup(place));
        }
    }
    Ok(Refusal::Nothing)
}

fn filled(alloc: Global, op: u8, left: u32, right: u32) -> Result<[Fe; 65], OutOfMemory>
    requires owned { is_from 33 36 op ≡ true }
{
    let operation = Operation {
        op,
        left,
        right,
        use_imm: false,
        rd: 5,
    };
    let done = step(alloc, 70000, &operation)?;
    let mut row = [Fe::ZERO; 65];
    DivRem::new().fill(&done, 0, &mut row);
    Ok(row)
}

/// The limbs that the row writes: those of event 12, which sends the new word.
fn written(alloc: Global, row: &[Fe; 65]) -> Result<[u32; 4], OutOfMemory> {
    let mut list = EventList::new(alloc);
    DivRem::new().events(row, &mut list)?;
    let mut word = [0; 4];
    if let Some(event) = list.as_slice().get(12) {
        for i in 0..4 {
            word[i as usize] = event.tuple.at(2 + i).unwrap_or(0);
        }
    }
    Ok(word)
}

fn elements(word: u32) -> [Fe; 4] {
    let bytes = limbs(word);
    [
        Fe::of_u16(bytes[0] as u16),
        Fe::of_u16(bytes[1] as u16),
        Fe::of_u16(bytes[2] as u16),
        Fe::of_u16(bytes[3] as u16),
    ]
}

/// A quotient and a remainder in place of those of a row, the remainder with a sign, and LT of it and the divisor.
#[derive(Clone, Copy, Debug)]
struct Results {
    quotient: u32,
    remainder: u32,
    signed_remainder: u32,
}

fn put(row: &mut [Fe], results: &Results)
    requires { length row.old ≡ 65 }
    ensures { length row.new ≡ 65 }
{
    let divisor = [row[28], row[29], row[30], row[31]];
    row[32..36].copy_from_slice(&elements(results.quotient));
    row[36..40].copy_from_slice(&elements(results.remainder));
    row[40..44].copy_from_slice(&elements(results.quotient));
    row[44..48].copy_from_slice(&elements(results.signed_remainder));
    let remainder = elements(results.remainder);
    fill_less(false, &remainder, &divisor, &mut row[48..56]);
}

/// 80000000 by FFFFFFFF, and 7 by 0, as a hand finds them.
#[test]
fn by_hand(rt: HostRuntime) -> Result<(), Fail> {
    let row = filled(rt.alloc(), opcode::DIV, 0x8000_0000, 0xFFFF_FFFF)?;
    let own = [
        1, 1, 0, 0, 0, 0, 128, 1, 0, 0, 0, 0, 0, 0, 128, 0, 0, 0, 0, 0, 0, 0, 128, 0, 0, 0, 0, 0,
        0, 1, 0, 0, 0, 0, 1,
    ];
    for i in 0..35 {
        assert_eq!(rt; row[21 + i].value(), own[i], "column {i}");
    }
    assert_eq!(rt; written(rt.alloc(), &row)?, [0, 0, 0, 128]);
    let row = filled(rt.alloc(), opcode::DIV, 7, 0)?;
    let found = [row[23].value(), row[36].value(), row[55].value()];
    assert_eq!(rt; found, [1, 7, 0]);
    assert_eq!(rt; written(rt.alloc(), &row)?, [255, 255, 255, 255]);
    let row = filled(rt.alloc(), opcode::REM, 7, 0)?;
    assert_eq!(rt; written(rt.alloc(), &row)?, [7, 0, 0, 0]);
    Ok(())
}

/// Rows with another quotient and remainder, whose other columns were made to fit.
#[test]
fn forged(rt: HostRuntime) -> Result<(), Fail> {
    for (op, words, results, refusal) in [
        (opcode::DIVU, (100, 7), (13, 9, 9), Refusal::Constraint(64)),
        (opcode::DIVU, (98, 7), (13, 7, 7), Refusal::Constraint(64)),
        (
            opcode::DIV,
            (0x8000_0000, 0xFFFF_FFFF),
            (0, 0x8000_0000, 0x8000_0000),
            Refusal::Constraint(64),
        ),
        (
            opcode::DIVU,
            (5, 0x0100_0000),
            (0x0100_0000, 5, 5),
            Refusal::Constraint(30),
        ),
        (opcode::REM, (100, 7), (14, 2, 3), Refusal::Constraint(39)),
    ] {
        let mut row = filled(rt.alloc(), op, words.0, words.1)?;
        assert_eq!(rt; refusal_of(rt.alloc(), &row)?, Refusal::Nothing);
        let (quotient, remainder, signed_remainder) = results;
        put(
            &mut row,
            &Results {
                quotient,
                remainder,
                signed_remainder,
            },
        );
        assert_eq!(rt; refusal_of(rt.alloc(), &row)?, refusal, "{words:?}");
    }
    let mut row = filled(rt.alloc(), opcode::DIVU, 100, 7)?;
    row[23] = Fe::ONE;
    assert_eq!(rt; refusal_of(rt.alloc(), &row)?, Refusal::Constraint(10));
    Ok(())
}

/// Quotient and remainder of signed words, by Rust's own arithmetic.
fn signed_parts(left: u32, right: u32) -> (u32, u32)
    requires { right ≢ 0 }
{
    let (a, b) = (left.cast_signed(), right.cast_signed());
    let quotient = a.wrapping_div(b).cast_unsigned();
    (quotient, left.wrapping_sub(quotient.wrapping_mul(right)))
}

fn expected(op: u8, left: u32, right: u32) -> u32 {
    let signed = op == opcode::DIV || op == opcode::REM;
    let (quotient, remainder) = if right == 0 {
        (0xFFFF_FFFF, left)
    } else if signed {
        signed_parts(left, right)
    } else {
        (left / right, left % right)
    };
    if op == opcode::DIV || op == opcode::DIVU {
        quotient
    } else {
        remainder
    }
}

/// All pairs of edge words, by each opcode: the rows hold, and write Rust's results.
#[test]
fn filled_rows(rt: HostRuntime) -> Result<(), Fail> {
    let words = [
        0,
        1,
        2,
        7,
        0x7FFF_FFFF,
        0x8000_0000,
        0x8000_0001,
        0xFFFF_FFFF,
        0x1234_5678,
    ];
    for op in 33..=36 {
        for left in &words {
            for right in &words {
                let row = filled(rt.alloc(), op, *left, *right)?;
                let name = (op, *left, *right);
                let word = limbs(expected(op, *left, *right)).map(u32::from);
                assert_eq!(rt; written(rt.alloc(), &row)?, word, "{name:?}");
                assert_eq!(rt; refusal_of(rt.alloc(), &row)?, Refusal::Nothing, "{name:?}");
            }
        }
    }
    Ok(())
}

#[test]
fn as_an_extension(rt: HostRuntime) -> Result<(), Fail> {
    let ext = Single::new(DivRem::new());
    assert_eq!(rt; (ext.tables(), ext.width(0), ext.slots(0)), (1, 65, 3));
    assert_eq!(rt;
        [ext.time_bits(), DivRemAt::<13>::new().time_bits()],
        [24, 29]
    );
    Ok(())
}
