//! Filled rows at the edges, and what refuses another link, another sum and a target that is too high.

ghost use Rattle.std.specs.Prelude.{◌≡◌, ◌+◌, ◌<◌, ◌^◌, true, length};
ghost use Rattle.air_core.specs.Flags.{opcode_place};
ghost use Rattle.gadget_time.specs.Form.{owns_of};
ghost use Rattle.chip_jump.specs.Link.{link_form};

use crate::{
    Auipc, AuipcAt, AuipcCore, JalLui, JalLuiAt, JalLuiCore, Jalr, JalrAt, JalrCore, LinkChip,
    LinkCore, LinkForm,
};
use Refusal::{Constraint, Lookup, Nothing};
use air_core::{Chip, Event, EventList, Extension, Single, bus, element};
use gadget_time::TableForm;
use std::alloc::Global;
use std::test::Fail;
use vm_field::Fe;
use vm_isa::{Access, AccessList, OutOfMemory, StepRecord, TimedAccess, VmInstr, opcode, space};
use vm_word::limbs;

/// What a row breaks first: a constraint, or the lookup at a place of its events.
#[derive(Clone, Copy, Debug, PartialEq, Eq)]
enum Refusal {
    Nothing,
    Constraint(u32),
    Lookup(usize),
}

fn is_good(event: &Event) -> bool {
    let number = event.tuple.at(0).unwrap_or(0);
    let bits = event.tuple.at(1).unwrap_or(0);
    event.bus != bus::RANGE || (bits <= 16 && number < 1 << bits.min(16))
}

/// What a row breaks first, and the next pc of its second event.
fn said<C: LinkCore>(alloc: Global, row: &[Fe]) -> Result<(Refusal, u32), OutOfMemory>
    requires { length row.now ≡ 2 + length C.link.opcodes + length C.link.layout }
{
    let chip = LinkChip::<C, 8>::new();
    let mut list = EventList::new(alloc);
    chip.events(row, &mut list)?;
    let next = match list.as_slice().get(1) {
        Some(event) => event.tuple.at(0).unwrap_or(0),
        None => 0,
    };
    if let Some(place) = chip.first_broken(row) {
        return Ok((Refusal::Constraint(place), next));
    }
    for (place, event) in list.as_slice().iter().enumerate() {
        if !is_good(event) {
            return Ok((Refusal::Lookup(place), next));
        }
    }
    Ok((Refusal::Nothing, next))
}

/// What a row breaks with one column off by one.
fn off_by_one<C: LinkCore, const N: usize>(
    alloc: Global,
    row: &[Fe; N],
    column: usize,
) -> Result<Refusal, OutOfMemory>
    requires { N ≡ 2 + length C.link.opcodes + length C.link.layout }
{
    let mut wrong = *row;
    if let Some(cell) = wrong.get_mut(column) {
        *cell = cell.add(Fe::ONE);
    }
    Ok(said::<C>(alloc, &wrong)?.0)
}

fn access(register: u8, word: u32, time: u32) -> TimedAccess {
    TimedAccess {
        access: Access {
            space: space::REGISTERS,
            pointer: 4 * register as u32,
            old: limbs(word),
            new: limbs(word),
        },
        time,
        before: 90,
    }
}

/// The row of a step at the time 70000 that reads `base` from x6 if it is JALR, and writes x5 or, with x0, nothing. Where it
/// leads and what it writes isn't filled from the record.
fn row<C: LinkCore, const N: usize>(
    alloc: Global,
    op: u8,
    pc: u32,
    write: bool,
    base: u32,
    imm: u32,
    target: u32,
) -> Result<[Fe; N], OutOfMemory>
    requires wide { N ≡ 2 + length C.link.opcodes + length C.link.layout }
    requires owned { owns_of (link_form C.link) op ≡ true }
    requires place { opcode_place C.link.opcodes op < length C.link.opcodes }
    requires low { pc < 2 ^ 29 }
{
    let mut accesses = AccessList::new(alloc);
    let (rs1, time) = if op == opcode::JALR {
        accesses.push(access(6, base, 70000))?;
        (6, 70001)
    } else {
        (0, 70000)
    };
    if write {
        accesses.push(access(5, 0x0607_0809, time))?;
    }
    let done = StepRecord {
        instr: VmInstr {
            pc,
            op,
            rd: if write { 5 } else { 0 },
            rs1,
            rs2: 0,
            write,
            use_imm: false,
            imm: limbs(imm),
            target,
        },
        time: 70000,
        accesses,
        next: 0,
    };
    let flags = C::FLAGS;
    let mut row = [Fe::ZERO; N];
    let cells = &mut row[..];
    cells[0] = element(pc);
    cells[1] = element(70000);
    cells[2 + C::place(op)] = Fe::ONE;
    LinkForm::<C>::fill(&done, &mut cells[2 + flags..]);
    Ok(row)
}

fn jal(alloc: Global, pc: u32, write: bool, target: u32) -> Result<[Fe; 22], OutOfMemory>
    requires { pc < 2 ^ 29 }
{
    row::<JalLuiCore, 22>(alloc, opcode::JAL, pc, write, 0, 0, target)
}

fn auipc(alloc: Global, pc: u32, imm: u32) -> Result<[Fe; 23], OutOfMemory>
    requires { pc < 2 ^ 29 }
{
    row::<AuipcCore, 23>(alloc, opcode::AUIPC, pc, true, 0, imm, 0)
}

fn jalr(alloc: Global, pc: u32, write: bool, base: u32, imm: u32) -> Result<[Fe; 31], OutOfMemory>
    requires { pc < 2 ^ 29 }
{
    row::<JalrCore, 31>(alloc, opcode::JALR, pc, write, base, imm, 0)
}

/// The four columns of a word.
fn word_at(row: &[Fe], at: usize) -> u32
    requires { at < 2 ^ 30 }
{
    let mut bytes = [0; 4];
    for i in 0..4 {
        bytes[i] = match row.get(at + i) {
            Some(limb) => (limb.value() % 256) as u8,
            None => 0,
        };
    }
    u32::from_le_bytes(bytes)
}

/// JAL to the first pc, to 0x1008 and to the last one, 2^29 - 4, from each of them, with x5 and with x0, which writes
/// nothing. From the last pc it is lawful, and the return address is 2^29. One column off by one breaks what a hand finds:
/// the target breaks nothing, since the program row has it, nor does the time of a write that isn't.
#[test]
fn jumps(rt: HostRuntime) -> Result<(), Fail> {
    let edges = [0, 0x1008, (1 << 29) - 4];
    for pc in &edges {
        for target in &edges {
            for write in [false, true] {
                let row = jal(rt.alloc(), *pc, write, *target)?;
                assert_eq!(rt; said::<JalLuiCore>(rt.alloc(), &row)?, (Nothing, *target));
                assert_eq!(rt; word_at(&row, 11), *pc + 4);
                let written = if write { Constraint(8) } else { Nothing };
                for (column, refusal) in [
                    (2, Constraint(0)),
                    (3, Constraint(2)),
                    (6, Nothing),
                    (11, Constraint(3)),
                    (14, Constraint(3)),
                    (19, written),
                ] {
                    let found = off_by_one::<JalLuiCore, 22>(rt.alloc(), &row, column)?;
                    assert_eq!(rt; found, refusal, "column {column}");
                }
            }
        }
    }
    Ok(())
}

/// The return address of 4096 has a second word in the field, 4100 + p, whose top limb is 120: its lookup refuses it.
/// So it does the second word of a pc for AUIPC.
#[test]
fn second_words(rt: HostRuntime) -> Result<(), Fail> {
    let second = [5u16, 16, 0, 120];
    let mut jal = jal(rt.alloc(), 4096, true, 8)?;
    let mut jalr = jalr(rt.alloc(), 4096, true, 0, 8)?;
    let mut auipc = auipc(rt.alloc(), 4096, 0)?;
    assert_eq!(rt; word_at(&jal, 11), 4100);
    for i in 0..4 {
        jal[11 + i] = Fe::of_u16(second[i]);
        jalr[14 + i] = Fe::of_u16(second[i]);
        let of_pc = if i == 0 { 1 } else { second[i] };
        auipc[8 + i] = Fe::of_u16(of_pc);
        auipc[12 + i] = Fe::of_u16(of_pc);
    }
    assert_eq!(rt; said::<JalLuiCore>(rt.alloc(), &jal)?.0, Lookup(10));
    assert_eq!(rt; said::<JalrCore>(rt.alloc(), &jalr)?.0, Lookup(16));
    assert_eq!(rt; said::<AuipcCore>(rt.alloc(), &auipc)?.0, Lookup(10));
    Ok(())
}

/// From the last pc LUI and AUIPC are lawful steps to 2^29, where no program row stands. One column off by one breaks
/// what a hand finds.
#[test]
fn sums_and_immediates(rt: HostRuntime) -> Result<(), Fail> {
    let last = (1 << 29) - 4;
    for imm in &[0, 0x1000, 0x7FFF_F000, 0x8000_0000, 0xFFFF_F000] {
        let lui = row::<JalLuiCore, 22>(rt.alloc(), opcode::LUI, last, true, 0, *imm, 0)?;
        assert_eq!(rt; said::<JalLuiCore>(rt.alloc(), &lui)?, (Nothing, 1 << 29));
        assert_eq!(rt; word_at(&lui, 11), *imm);
        for (column, place) in [(3, 1), (11, 4), (14, 7), (19, 8)] {
            let found = off_by_one::<JalLuiCore, 22>(rt.alloc(), &lui, column)?;
            assert_eq!(rt; found, Constraint(place), "column {column}");
        }
        let auipc = auipc(rt.alloc(), last, *imm)?;
        assert_eq!(rt; said::<AuipcCore>(rt.alloc(), &auipc)?, (Nothing, 1 << 29));
        assert_eq!(rt; word_at(&auipc, 12), last.wrapping_add(*imm));
        for (column, place) in [(2, 0), (8, 2), (12, 3), (15, 6), (20, 7)] {
            let found = off_by_one::<AuipcCore, 23>(rt.alloc(), &auipc, column)?;
            assert_eq!(rt; found, Constraint(place), "column {column}");
        }
    }
    Ok(())
}

/// From 4096 and from the last pc: sums that are even and odd, that wrap, the last pc, and the highest one that leads below
/// 2^29, with x5 and with x0, which writes nothing. With the remainder turned the part of the low half isn't looked up; one
/// column off by one breaks what a hand finds. A sum of 2^29 is refused by its high half.
#[test]
fn returns(rt: HostRuntime) -> Result<(), Fail> {
    let last = (1 << 29) - 4;
    for (pc, base, imm, target) in [
        (4096, 0x1000, 2, 0x1002),
        (last, 0x1000, 0xFFFF_FFFF, 0xFFE),
        (last, 0xFFFF_FFFF, 1, 0),
        (last, last, 1, last),
        (4096, 0x1FFF_FFFF, 0, 0x1FFF_FFFE),
        (4096, 0x1FFF_FFFB, 4, 0x1FFF_FFFE),
    ] {
        for write in [false, true] {
            let row = jalr(rt.alloc(), pc, write, base, imm)?;
            assert_eq!(rt; said::<JalrCore>(rt.alloc(), &row)?, (Nothing, target));
            assert_eq!(rt; word_at(&row, 14), pc + 4);
            let mut turned = row;
            turned[24] = Fe::ONE.sub(row[24]);
            let (half, written) = if write {
                (11, Constraint(7))
            } else {
                (7, Nothing)
            };
            assert_eq!(rt; said::<JalrCore>(rt.alloc(), &turned)?.0, Lookup(half));
            for (column, refusal) in [
                (2, Constraint(0)),
                (22, Constraint(2)),
                (23, Constraint(3)),
                (14, Constraint(5)),
                (25, Constraint(6)),
                (28, written),
            ] {
                let found = off_by_one::<JalrCore, 31>(rt.alloc(), &row, column)?;
                assert_eq!(rt; found, refusal, "column {column}");
            }
        }
    }
    let high = jalr(rt.alloc(), 4096, false, 0x2000_0000, 0)?;
    assert_eq!(rt; said::<JalrCore>(rt.alloc(), &high)?.0, Lookup(8));
    Ok(())
}

#[test]
fn as_extensions(rt: HostRuntime) -> Result<(), Fail> {
    let ext = Single::new(JalLui::new());
    let bits = JalLuiAt::<13>::new().time_bits();
    assert_eq!(rt; (ext.width(0), ext.slots(0), bits), (22, 1, 29));
    let ext = Single::new(Auipc::new());
    let bits = AuipcAt::<13>::new().time_bits();
    assert_eq!(rt; (ext.width(0), ext.slots(0), bits), (23, 1, 29));
    let ext = Single::new(Jalr::new());
    let bits = JalrAt::<13>::new().time_bits();
    assert_eq!(rt; (ext.width(0), ext.slots(0), bits), (31, 2, 29));
    Ok(())
}
