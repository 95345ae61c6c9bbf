//! Filled rows, by hand and of edge words.

ghost use Rattle.std.specs.Prelude.{◌≡◌, ◌<◌, true};
ghost use Rattle.vm_isa.specs.Opcodes.{is_from};

use crate::{Less, LessAt};
use adapter_regs::records::{Operation, step};
use air_core::{Chip, Event, EventList, Extension, Single, bus, element};
use std::alloc::Global;
use std::test::Fail;
use vm_field::Fe;
use vm_isa::OutOfMemory;

/// What a row breaks first: a constraint, or the lookup at a place of its events.
#[derive(Clone, Copy, Debug, PartialEq, Eq)]
enum Refusal {
    Nothing,
    Constraint(u32),
    Lookup(usize),
}

fn is_good(event: &Event) -> bool {
    let number = event.tuple.at(0).unwrap_or(0);
    let bits = event.tuple.at(1).unwrap_or(0);
    event.bus != bus::RANGE || (bits <= 16 && number < 1 << bits.min(16))
}

fn refusal_of(alloc: Global, row: &[Fe; 41]) -> Result<Refusal, OutOfMemory> {
    if let Some(place) = Less::new().first_broken(row) {
        return Ok(Refusal::Constraint(place));
    }
    let mut list = EventList::new(alloc);
    Less::new().events(row, &mut list)?;
    for (place, event) in list.as_slice().iter().enumerate() {
        if !is_good(event) {
            return Ok(Refusal::Lookup(place));
        }
    }
    Ok(Refusal::Nothing)
}

fn filled(
    alloc: Global,
    op: u8,
    left: u32,
    right: u32,
    form: (bool, u8),
) -> Result<[Fe; 41], OutOfMemory>
    requires owned { is_from 6 7 op ≡ true }
    requires register { form.1 < 32 }
{
    let (use_imm, rd) = form;
    let operation = Operation {
        op,
        left,
        right,
        use_imm,
        rd,
    };
    let done = step(alloc, 70000, &operation)?;
    let mut row = [Fe::ZERO; 41];
    Less::new().fill(&done, 0, &mut row);
    Ok(row)
}

/// The columns of LT: two top limbs, four marks, distance and answer.
fn order_of(row: &[Fe; 41]) -> [u32; 8] {
    let mut numbers = [0; 8];
    for i in 0..8 {
        numbers[i] = row[24 + i].value();
    }
    numbers
}

/// FFFFFFFF is -1, whose top limb is -1 too, where words are signed. One column off by one breaks what a hand finds.
#[test]
fn by_hand(rt: HostRuntime) -> Result<(), Fail> {
    let signed = filled(rt.alloc(), 6, 0xFFFF_FFFF, 0, (false, 5))?;
    assert_eq!(rt; order_of(&signed), [2013265920, 0, 0, 0, 0, 1, 0, 1]);
    let unsigned = filled(rt.alloc(), 7, 0xFFFF_FFFF, 0, (false, 5))?;
    assert_eq!(rt; order_of(&unsigned), [255, 0, 0, 0, 0, 1, 254, 0]);
    for (column, refusal) in [
        (2, Refusal::Constraint(2)),
        (15, Refusal::Constraint(7)),
        (19, Refusal::Constraint(8)),
        (26, Refusal::Constraint(13)),
        (29, Refusal::Constraint(12)),
        (30, Refusal::Constraint(23)),
        (31, Refusal::Constraint(23)),
        (32, Refusal::Constraint(24)),
    ] {
        let mut row = unsigned;
        row[column] = row[column].add(Fe::ONE);
        let found = refusal_of(rt.alloc(), &row)?;
        assert_eq!(rt; found, refusal, "column {column}");
    }
    Ok(())
}

/// FFFFFFFF as a signed word where words aren't: the constraints hold, and the lookup of the top limb, event 15, refuses it.
#[test]
fn a_sign_where_there_is_none(rt: HostRuntime) -> Result<(), Fail> {
    let mut row = filled(rt.alloc(), 6, 0xFFFF_FFFF, 0, (false, 5))?;
    assert_eq!(rt; refusal_of(rt.alloc(), &row)?, Refusal::Nothing);
    row[2] = Fe::ZERO;
    row[3] = Fe::ONE;
    assert_eq!(rt; refusal_of(rt.alloc(), &row)?, Refusal::Lookup(15));
    Ok(())
}

/// x6 in all three places: its word is read, read again a time later, and written. The row says each time before, and
/// with the time of the first access before the third it breaks.
#[test]
fn one_register(rt: HostRuntime) -> Result<(), Fail> {
    let mut row = filled(rt.alloc(), 6, 0x8000_0001, 0x8000_0001, (false, 6))?;
    row[6] = row[5];
    for (column, number) in [(35, 70000), (36, 0), (37, 0), (38, 70001), (39, 0), (40, 0)] {
        row[column] = element(number);
    }
    let registers = [row[4].value(), row[5].value(), row[6].value()];
    assert_eq!(rt; registers, [6, 6, 6]);
    assert_eq!(rt; refusal_of(rt.alloc(), &row)?, Refusal::Nothing);
    row[38] = element(70000);
    assert_eq!(rt; refusal_of(rt.alloc(), &row)?, Refusal::Constraint(26));
    Ok(())
}

#[test]
fn as_an_extension(rt: HostRuntime) -> Result<(), Fail> {
    let ext = Single::new(Less::new());
    assert_eq!(rt; (ext.tables(), ext.width(0), ext.slots(0)), (1, 41, 3));
    assert_eq!(rt;
        [ext.time_bits(), LessAt::<13>::new().time_bits()],
        [24, 29]
    );
    Ok(())
}

/// Whether the filled row of two words has the answer, holds, and with the other answer doesn't.
fn is_right(
    alloc: Global,
    op: u8,
    left: u32,
    right: u32,
    form: (bool, u8),
) -> Result<bool, OutOfMemory>
    requires owned { is_from 6 7 op ≡ true }
    requires register { form.1 < 32 }
{
    let less = if op == 6 {
        left.cast_signed() < right.cast_signed()
    } else {
        left < right
    };
    let mut row = filled(alloc, op, left, right, form)?;
    let right = row[31].value() == less as u32 && refusal_of(alloc, &row)? == Refusal::Nothing;
    row[31] = Fe::ONE.sub(row[31]);
    Ok(right && refusal_of(alloc, &row)? != Refusal::Nothing)
}

#[test]
fn filled_rows(rt: HostRuntime) -> Result<(), Fail> {
    let words = [0, 1, 0x7FFF_FFFF, 0x8000_0000, 0xFFFF_FFFF];
    for op in 6..=7 {
        for left in &words {
            for right in &words {
                for rd in 5..8 {
                    for use_imm in [false, true] {
                        let good = is_right(rt.alloc(), op, *left, *right, (use_imm, rd))?;
                        assert!(rt; good, "{op} {left} {right} {use_imm} {rd}");
                    }
                }
            }
        }
    }
    Ok(())
}
