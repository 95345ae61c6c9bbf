//! Filled rows, by hand and of edge words.

ghost use Rattle.std.specs.Prelude.{◌≡◌, ◌+◌, ◌<◌, ◌^◌, true, length};
ghost use Rattle.vm_isa.specs.Opcodes.{is_from};
ghost use Rattle.air_core.specs.Flags.{opcode_place};
ghost use Rattle.gadget_time.specs.Form.{owns_of};
ghost use Rattle.chip_branch.specs.Branch.{branch_form};

use crate::{
    BranchChip, BranchEq, BranchEqAt, BranchForm, BranchLt, BranchLtAt, Condition, EqualCondition,
    OrderCondition,
};
use Refusal::{Constraint, Nothing};
use air_core::{Chip, Event, EventList, Extension, Single, bus, element};
use gadget_time::TableForm;
use std::alloc::Global;
use std::test::Fail;
use vm_field::Fe;
use vm_isa::{Access, AccessList, OutOfMemory, StepRecord, TimedAccess, VmInstr, opcode, space};
use vm_word::limbs;

/// What a row breaks first: a constraint, or the lookup at a place of its events.
#[derive(Clone, Copy, Debug, PartialEq, Eq)]
enum Refusal {
    Nothing,
    Constraint(u32),
    Lookup(usize),
}

fn is_good(event: &Event) -> bool {
    let number = event.tuple.at(0).unwrap_or(0);
    let bits = event.tuple.at(1).unwrap_or(0);
    event.bus != bus::RANGE || (bits <= 16 && number < 1 << bits.min(16))
}

/// What a row breaks first, and the next pc of its second event.
fn said<C: Condition>(alloc: Global, row: &[Fe]) -> Result<(Refusal, u32), OutOfMemory>
    requires { length row.now ≡ 19 + length C.condition.opcodes + C.condition.own }
{
    let chip = BranchChip::<C, 8>::new();
    let mut list = EventList::new(alloc);
    chip.events(row, &mut list)?;
    let next = match list.as_slice().get(1) {
        Some(event) => event.tuple.at(0).unwrap_or(0),
        None => 0,
    };
    if let Some(place) = chip.first_broken(row) {
        return Ok((Refusal::Constraint(place), next));
    }
    for (place, event) in list.as_slice().iter().enumerate() {
        if !is_good(event) {
            return Ok((Refusal::Lookup(place), next));
        }
    }
    Ok((Refusal::Nothing, next))
}

/// What a row breaks with one column off by one.
fn off_by_one<C: Condition, const N: usize>(
    alloc: Global,
    row: &[Fe; N],
    column: usize,
) -> Result<Refusal, OutOfMemory>
    requires { N ≡ 19 + length C.condition.opcodes + C.condition.own }
{
    let mut wrong = *row;
    if let Some(cell) = wrong.get_mut(column) {
        *cell = cell.add(Fe::ONE);
    }
    Ok(said::<C>(alloc, &wrong)?.0)
}

fn read(register: u8, word: u32, time: u32, before: u32) -> TimedAccess {
    TimedAccess {
        access: Access {
            space: space::REGISTERS,
            pointer: 4 * register as u32,
            old: limbs(word),
            new: limbs(word),
        },
        time,
        before,
    }
}

/// The row of a branch of x6 and x7 at the time 70000. Where it leads isn't filled.
fn row<C: Condition, const N: usize>(
    alloc: Global,
    op: u8,
    pc: u32,
    words: (u32, u32),
    target: u32,
) -> Result<[Fe; N], OutOfMemory>
    requires wide { N ≡ 19 + length C.condition.opcodes + C.condition.own }
    requires owned { owns_of (branch_form C.condition) op ≡ true }
    requires place { opcode_place C.condition.opcodes op < length C.condition.opcodes }
    requires low { pc < 2 ^ 29 }
{
    let mut accesses = AccessList::new(alloc);
    accesses.push(read(6, words.0, 70000, 90))?;
    accesses.push(read(7, words.1, 70001, 50))?;
    let done = StepRecord {
        instr: VmInstr {
            pc,
            op,
            rd: 0,
            rs1: 6,
            rs2: 7,
            write: false,
            use_imm: false,
            imm: [0, 0, 0, 0],
            target,
        },
        time: 70000,
        accesses,
        next: 0,
    };
    let flags = C::FLAGS;
    let mut row = [Fe::ZERO; N];
    let cells = &mut row[..];
    cells[0] = element(pc);
    cells[1] = element(70000);
    cells[2 + C::place(op)] = Fe::ONE;
    BranchForm::<C>::fill(&done, &mut cells[2 + flags..]);
    Ok(row)
}

fn equal(
    alloc: Global,
    op: u8,
    pc: u32,
    words: (u32, u32),
    to: u32,
) -> Result<[Fe; 26], OutOfMemory>
    requires owned { is_from 19 20 op ≡ true }
    requires low { pc < 2 ^ 29 }
{
    row::<EqualCondition, 26>(alloc, op, pc, words, to)
}

fn order(
    alloc: Global,
    op: u8,
    pc: u32,
    words: (u32, u32),
    to: u32,
) -> Result<[Fe; 31], OutOfMemory>
    requires owned { is_from 21 24 op ≡ true }
    requires low { pc < 2 ^ 29 }
{
    row::<OrderCondition, 31>(alloc, op, pc, words, to)
}

/// BNE of words that differ in the second limb alone. One column changed breaks what a hand finds: the test says
/// that they are the same, its factor is another, or the first access is of another time.
#[test]
fn by_hand(rt: HostRuntime) -> Result<(), Fail> {
    let row = equal(rt.alloc(), opcode::BNE, 4096, (0x0102_0304, 0x0102_0504), 8)?;
    assert_eq!(rt; said::<EqualCondition>(rt.alloc(), &row)?, (Nothing, 8));
    let twice = row[17].mul(element(2));
    assert_eq!(rt; twice, Fe::ZERO.sub(Fe::ONE));
    for (column, place) in [(2, 2), (15, 5), (17, 8), (8, 8), (20, 9), (23, 10)] {
        let found = off_by_one::<EqualCondition, 26>(rt.alloc(), &row, column)?;
        assert_eq!(rt; found, Constraint(place), "column {column}");
    }
    Ok(())
}

/// BLTU of equal words: no limb is marked, the answer is 0, and the next pc is pc + 4. With a mark at the lowest limb
/// its constraint is broken, and with the other answer that of an answer without a mark.
#[test]
fn equal_words(rt: HostRuntime) -> Result<(), Fail> {
    let row = order(
        rt.alloc(),
        opcode::BLTU,
        4096,
        (0x8000_0001, 0x8000_0001),
        8,
    )?;
    assert_eq!(rt; said::<OrderCondition>(rt.alloc(), &row)?, (Nothing, 4100));
    for i in 19..25 {
        let number = row[i].value();
        assert_eq!(rt; number, 0);
    }
    for (column, place) in [(19, 18), (24, 13), (20, 19)] {
        let found = off_by_one::<OrderCondition, 31>(rt.alloc(), &row, column)?;
        assert_eq!(rt; found, Constraint(place), "column {column}");
    }
    Ok(())
}

/// BEQ of x6 and x6: its word is read again a time later. With an earlier time before it breaks.
#[test]
fn one_register(rt: HostRuntime) -> Result<(), Fail> {
    let word = 0x8000_0001;
    let mut row = equal(rt.alloc(), opcode::BEQ, 4096, (word, word), 8)?;
    row[5] = row[4];
    for (column, number) in [(23, 70000), (24, 0), (25, 0)] {
        row[column] = element(number);
    }
    assert_eq!(rt; [row[4].value(), row[5].value()], [6, 6]);
    assert_eq!(rt; said::<EqualCondition>(rt.alloc(), &row)?, (Nothing, 8));
    row[23] = element(69999);
    let found = said::<EqualCondition>(rt.alloc(), &row)?.0;
    assert_eq!(rt; found, Constraint(10));
    Ok(())
}

#[test]
fn as_extensions(rt: HostRuntime) -> Result<(), Fail> {
    let ext = Single::new(BranchEq::new());
    let bits = BranchEqAt::<13>::new().time_bits();
    assert_eq!(rt; (ext.width(0), ext.slots(0), bits), (26, 2, 29));
    let ext = Single::new(BranchLt::new());
    let bits = BranchLtAt::<13>::new().time_bits();
    assert_eq!(rt; (ext.width(0), ext.slots(0), bits), (31, 2, 29));
    Ok(())
}

fn is_taken(op: u8, left: u32, right: u32) -> bool {
    match op {
        opcode::BEQ => left == right,
        opcode::BNE => left != right,
        opcode::BLT => left.cast_signed() < right.cast_signed(),
        opcode::BLTU => left < right,
        opcode::BGE => left.cast_signed() >= right.cast_signed(),
        _ => left >= right,
    }
}

/// Where a branch at the last pc leads.
fn leads(op: u8, left: u32, right: u32, target: u32) -> u32 {
    if is_taken(op, left, right) {
        target
    } else {
        1 << 29
    }
}

/// Each pair of edge words from the last pc to the first and to the last one: the row holds and leads where the
/// branch does, and with the answer turned it doesn't hold.
#[test]
fn filled_rows(rt: HostRuntime) -> Result<(), Fail> {
    let last = (1 << 29) - 4;
    let words = [0, 1, 0x7FFF_FFFF, 0x8000_0000, 0xFFFF_FFFF];
    for left in &words {
        for right in &words {
            for target in [0, last] {
                for op in 19..=20 {
                    let mut row = equal(rt.alloc(), op, last, (*left, *right), target)?;
                    let next = leads(op, *left, *right, target);
                    assert_eq!(rt; said::<EqualCondition>(rt.alloc(), &row)?, (Nothing, next));
                    row[15] = Fe::ONE.sub(row[15]);
                    assert!(rt; said::<EqualCondition>(rt.alloc(), &row)?.0 != Nothing);
                }
                for op in 21..=24 {
                    let mut row = order(rt.alloc(), op, last, (*left, *right), target)?;
                    let next = leads(op, *left, *right, target);
                    assert_eq!(rt; said::<OrderCondition>(rt.alloc(), &row)?, (Nothing, next));
                    row[24] = Fe::ONE.sub(row[24]);
                    assert!(rt; said::<OrderCondition>(rt.alloc(), &row)?.0 != Nothing);
                }
            }
        }
    }
    Ok(())
}
