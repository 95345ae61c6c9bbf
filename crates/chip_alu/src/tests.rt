//! Rows by hand, and filled rows of every operation.

ghost use Rattle.std.specs.Prelude.{◌≡◌, ◌≤◌, ◌<◌, true, length};
ghost use Rattle.vm_isa.specs.Opcodes.{is_from};

use crate::{Alu, AluAt};
use adapter_regs::records::{Operation, step};
use air_core::{Chip, EventList, Extension, Single, Tuple, bus};
use std::alloc::Global;
use std::test::Fail;
use vm_field::Fe;
use vm_isa::OutOfMemory;

/// SUB x5, x6, x7 at the pc 4096 and the time 100: 0x10203 - 0x304 is 0xFEFF. And XOR of the same words.
const DIFFERENCE: [u32; 40] = [
    4096, 100, 0, 1, 0, 0, 0, 5, 6, 7, 0, 0, 0, 0, 0, 3, 2, 1, 0, 4, 3, 0, 0, 9, 8, 7, 6, 255, 254,
    0, 0, 90, 9, 0, 50, 50, 0, 0, 101, 0,
];

const XOR: [u32; 40] = [
    4096, 100, 0, 0, 1, 0, 0, 5, 6, 7, 0, 0, 0, 0, 0, 3, 2, 1, 0, 4, 3, 0, 0, 9, 8, 7, 6, 7, 1, 1,
    0, 90, 9, 0, 50, 50, 0, 0, 101, 0,
];

fn elements(numbers: &[u32; 40]) -> [Fe; 40] {
    let mut row = [Fe::ZERO; 40];
    for i in 0..40 {
        row[i] = Fe::new(numbers[i]).unwrap_or(Fe::ZERO);
    }
    row
}

/// The constraint that a row breaks, or the first of its xor lookups that isn't in the table.
#[derive(Clone, Copy, Debug, PartialEq, Eq)]
enum Refusal {
    Nothing,
    Constraint(u32),
    Lookup(usize),
}

fn refusal_of(alloc: Global, row: &[Fe; 40]) -> Result<Refusal, OutOfMemory> {
    if let Some(place) = Alu::new().first_broken(row) {
        return Ok(Refusal::Constraint(place));
    }
    let mut list = EventList::new(alloc);
    Alu::new().events(row, &mut list)?;
    for (place, event) in list.as_slice().iter().enumerate() {
        let x = event.tuple.at(0).unwrap_or(0);
        let y = event.tuple.at(1).unwrap_or(0);
        let right = x < 256 && y < 256 && event.tuple == Tuple::of(&[x, y, x ^ y]);
        if event.bus == bus::XOR && !right {
            return Ok(Refusal::Lookup(place));
        }
    }
    Ok(Refusal::Nothing)
}

/// Each limb of the result off by one, in turn: a difference breaks its carry, and a xor its lookup, of
/// which the first is event 15.
#[test]
fn each_limb_wrong(rt: HostRuntime) -> Result<(), Fail> {
    let (difference, xor) = (elements(&DIFFERENCE), elements(&XOR));
    assert_eq!(rt; refusal_of(rt.alloc(), &difference)?, Refusal::Nothing);
    assert_eq!(rt; refusal_of(rt.alloc(), &xor)?, Refusal::Nothing);
    for limb in 0..4 {
        let mut row = difference;
        row[27 + limb] = row[27 + limb].add(Fe::ONE);
        assert_eq!(rt;
            refusal_of(rt.alloc(), &row)?,
            Refusal::Constraint(14 + limb as u32)
        );
        let mut row = xor;
        row[27 + limb] = row[27 + limb].add(Fe::ONE);
        assert_eq!(rt; refusal_of(rt.alloc(), &row)?, Refusal::Lookup(15 + limb));
    }
    Ok(())
}

/// 255 + 1 with a limb of 256 and no carry meets the constraints of a sum. The lookup of the limb refuses it.
#[test]
fn a_limb_of_256(rt: HostRuntime) -> Result<(), Fail> {
    let mut numbers = DIFFERENCE;
    for (column, number) in [
        (2, 1),
        (3, 0),
        (15, 255),
        (16, 0),
        (17, 0),
        (19, 1),
        (20, 0),
        (27, 256),
        (28, 0),
    ] {
        numbers[column] = number;
    }
    assert_eq!(rt;
        refusal_of(rt.alloc(), &elements(&numbers))?,
        Refusal::Lookup(15)
    );
    Ok(())
}

#[test]
fn as_an_extension(rt: HostRuntime) -> Result<(), Fail> {
    let ext = Single::new(Alu::new());
    assert_eq!(rt; (ext.tables(), ext.width(0), ext.slots(0)), (1, 40, 3));
    assert_eq!(rt; [ext.time_bits(), AluAt::<13>::new().time_bits()], [24, 29]);
    for op in 0..=255 {
        let owner = if 1 <= op && op <= 5 { Some(0) } else { None };
        assert_eq!(rt; ext.owner(op), owner, "opcode {op}");
    }
    Ok(())
}

/// Whether the filled row of an operation is right, and no longer so with the second limb of its result off by one.
fn is_right(
    alloc: Global,
    op: u8,
    left: u32,
    right: u32,
    form: (bool, u8),
) -> Result<bool, OutOfMemory>
    requires owned { is_from 1 5 op ≡ true }
    requires register { form.1 < 32 }
{
    let (use_imm, rd) = form;
    let operation = Operation {
        op,
        left,
        right,
        use_imm,
        rd,
    };
    let done = step(alloc, 70000, &operation)?;
    let mut row = [Fe::ZERO; 40];
    Alu::new().fill(&done, 0, &mut row);
    let right = refusal_of(alloc, &row)? == Refusal::Nothing;
    row[28] = row[28].add(Fe::ONE);
    Ok(right && refusal_of(alloc, &row)? != Refusal::Nothing)
}

#[test]
fn filled_rows(rt: HostRuntime) -> Result<(), Fail> {
    let words = [0, 1, 0xFFFF_FFFF, 0x8000_0000, 0x7FFF_FFFF];
    for op in 1..=5 {
        for left in &words {
            for right in &words {
                for rd in 5..8 {
                    for use_imm in [false, true] {
                        let good = is_right(rt.alloc(), op, *left, *right, (use_imm, rd))?;
                        assert!(rt; good, "{op} {left} {right} {use_imm} {rd}");
                    }
                }
            }
        }
    }
    Ok(())
}
