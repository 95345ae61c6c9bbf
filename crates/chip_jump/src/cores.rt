//! The three cores: JAL and LUI, AUIPC, and JALR.

ghost use Rattle.std.specs.Prelude.{◌≡◌, ◌<◌, ◌^◌, ◌++◌};
ghost use Rattle.air_core.specs.First.{first_from};
ghost use Rattle.air_core.specs.Ring.{field};
ghost use Rattle.chip_jump.specs.Link.{cells_of, word_ranges};
ghost use Rattle.chip_jump.specs.Cores.{jal_constraints, jal_lui_layout, jal_lui_link, auipc_constraints, auipc_layout, auipc_link, jalr_constraints, jalr_layout, jalr_link, jalr_ranges};

use crate::columns::{
    NO_COLUMNS, Ranged, emit_ranged, link_difference, number_by, with_bits, word_ranges,
};
use crate::{LinkColumns, LinkCore};
use adapter_mem::{part, pointer, pointer_constraints};
use adapter_regs::next_by;
use air_core::{
    EventSink, OutOfMemory, bit, element, first, first_nonzero, flag_sum, gated_difference,
};
use gadget_time::{access_at, gap_at};
use vm_field::{Fe, Limbs};
use vm_isa::{StepRecord, opcode};
use vm_word::limbs;

/// The own part of the table of JAL and LUI. It has no values.
#[derive(Clone, Copy, Debug)]
pub struct JalLuiCore;

/// The new word is the return address, or the immediate.
fn jal_constraints(jal: Fe, lui: Fe, pc: Fe, m: &LinkColumns) -> [Fe; 5]
    ensures { result ≡ jal_constraints field jal lui pc m.now.new m.now.imm }
{
    let (new, imm) = (m.new, m.imm);
    [
        jal.mul(link_difference(&new, pc)),
        gated_difference(lui, new.x0, imm.x0),
        gated_difference(lui, new.x1, imm.x1),
        gated_difference(lui, new.x2, imm.x2),
        gated_difference(lui, new.x3, imm.x3),
    ]
}

/// In the order of the row.
fn jal_lui_cells(m: &LinkColumns) -> [Fe; 18]
    ensures { result ≡ cells_of jal_lui_layout m.now }
{
    let (imm, new, old, t) = (m.imm, m.new, m.old, m.wrote);
    [
        m.rd, m.write, m.target, imm.x0, imm.x1, imm.x2, imm.x3, new.x0, new.x1, new.x2, new.x3,
        old.x0, old.x1, old.x2, old.x3, t.before, t.lo, t.hi,
    ]
}

impl LinkCore for JalLuiCore {
    ghost use Rattle.std.specs.Prelude.{refl};
    ghost use Rattle.chip_jump.specs.lemmas.Cores.{jal_lui_laws};

    const FLAGS: usize = 2;

    const REST: usize = 18;

    const SLOTS: u16 = 1;

    ghost FLAGS = { 2 };

    ghost REST = { 18 };

    ghost SLOTS = { 1 };

    ghost link = { jal_lui_link };

    ghost sizes = { (refl, refl, refl) };

    ghost laws = { jal_lui_laws };

    fn reads() -> bool {
        false
    }

    fn owns(op: u8) -> bool {
        op == opcode::JAL || op == opcode::LUI
    }

    fn opcode(flags: &[Fe]) -> Fe {
        let opcodes = [opcode::JAL as u16, opcode::LUI as u16];
        air_core::opcode(&[flags[0], flags[1]], &opcodes)
    }

    #[tactic(auto, unfolding(vm_field::specs::Limbs::limbs_at))]
    fn read(rest: &[Fe]) -> LinkColumns {
        LinkColumns {
            rd: rest[0],
            write: rest[1],
            target: rest[2],
            imm: Limbs::read(rest, 3),
            new: Limbs::read(rest, 7),
            old: Limbs::read(rest, 11),
            wrote: gap_at(rest, 15),
            ..NO_COLUMNS
        }
    }

    fn next(pc: Fe, flags: &[Fe], m: &LinkColumns) -> Fe {
        next_by(pc, m.target, flags[0])
    }

    fn constraints() -> u32 {
        5
    }

    fn first_broken(from: u32, pc: Fe, flags: &[Fe], m: &LinkColumns) -> Option<u32> {
        first_nonzero(from, &jal_constraints(flags[0], flags[1], pc, m))
    }

    /// The top limb of a return address has 6 bits.
    fn lookups<S: EventSink>(
        valid: Fe,
        flags: &[Fe],
        m: &LinkColumns,
        sink: &mut S,
    ) -> Result<(), OutOfMemory> {
        let bits = Fe::of_u16(8).sub(Fe::of_u16(2).mul(flags[0]));
        emit_ranged(valid, &word_ranges(bits, &m.new), sink)
    }

    fn place(op: u8) -> usize {
        if op == opcode::JAL { 0 } else { 1 }
    }

    fn word(done: &StepRecord) -> Limbs {
        Limbs::ZERO
    }

    fn fill(m: &LinkColumns, rest: &mut [Fe]) {
        rest.copy_from_slice(&jal_lui_cells(m));
    }
}

/// The own part of the table of AUIPC. It has no values.
#[derive(Clone, Copy, Debug)]
pub struct AuipcCore;

/// The first broken constraint of the word of pc and of its sum with the immediate.
fn auipc_broken(from: u32, valid: Fe, pc: Fe, m: &LinkColumns) -> Option<u32>
    requires from { from < 2 ^ 16 }
    ensures { result ≡ first_from from (auipc_constraints field valid pc m.now.word m.now.imm m.now.new) }
{
    let here = first_nonzero(from, &[number_by(&m.word).sub(pc)]);
    let (word, imm, new) = (m.word.array(), m.imm.array(), m.new.array());
    let sums = gadget_limbs::first_broken(from + 1, valid, &word, &imm, &new);
    first(here, sums)
}

/// The words of pc and of the sum.
fn auipc_ranges(m: &LinkColumns) -> [Ranged; 8]
    ensures { result ≡ word_ranges field 6 m.now.word ++ word_ranges field 8 m.now.new }
{
    let [a, b, c, d] = word_ranges(Fe::of_u16(6), &m.word);
    let [e, f, g, h] = word_ranges(Fe::of_u16(8), &m.new);
    [a, b, c, d, e, f, g, h]
}

/// In the order of the row.
fn auipc_cells(m: &LinkColumns) -> [Fe; 20]
    ensures { result ≡ cells_of auipc_layout m.now }
{
    let (imm, word, new, old, t) = (m.imm, m.word, m.new, m.old, m.wrote);
    [
        m.rd, imm.x0, imm.x1, imm.x2, imm.x3, word.x0, word.x1, word.x2, word.x3, new.x0, new.x1,
        new.x2, new.x3, old.x0, old.x1, old.x2, old.x3, t.before, t.lo, t.hi,
    ]
}

impl LinkCore for AuipcCore {
    ghost use Rattle.std.specs.Prelude.{refl};
    ghost use Rattle.chip_jump.specs.lemmas.Cores.{auipc_laws};

    const FLAGS: usize = 1;

    const REST: usize = 20;

    const SLOTS: u16 = 1;

    ghost FLAGS = { 1 };

    ghost REST = { 20 };

    ghost SLOTS = { 1 };

    ghost link = { auipc_link };

    ghost sizes = { (refl, refl, refl) };

    ghost laws = { auipc_laws };

    fn reads() -> bool {
        false
    }

    fn owns(op: u8) -> bool {
        op == opcode::AUIPC
    }

    fn opcode(flags: &[Fe]) -> Fe {
        air_core::opcode(&[flags[0]], &[opcode::AUIPC as u16])
    }

    #[tactic(auto, unfolding(vm_field::specs::Limbs::limbs_at))]
    fn read(rest: &[Fe]) -> LinkColumns {
        LinkColumns {
            rd: rest[0],
            write: Fe::ONE,
            imm: Limbs::read(rest, 1),
            word: Limbs::read(rest, 5),
            new: Limbs::read(rest, 9),
            old: Limbs::read(rest, 13),
            wrote: gap_at(rest, 17),
            ..NO_COLUMNS
        }
    }

    fn next(pc: Fe, flags: &[Fe], m: &LinkColumns) -> Fe {
        pc.add(Fe::of_u16(4))
    }

    #[tactic(auto, unfolding(gadget_limbs::specs::Sum::sum_constraints, vm_field::specs::Limbs::list_of))]
    fn constraints() -> u32 {
        5
    }

    fn first_broken(from: u32, pc: Fe, flags: &[Fe], m: &LinkColumns) -> Option<u32> {
        auipc_broken(from, flag_sum(flags), pc, m)
    }

    fn lookups<S: EventSink>(
        valid: Fe,
        flags: &[Fe],
        m: &LinkColumns,
        sink: &mut S,
    ) -> Result<(), OutOfMemory> {
        emit_ranged(valid, &auipc_ranges(m), sink)
    }

    fn place(op: u8) -> usize {
        0
    }

    fn word(done: &StepRecord) -> Limbs {
        Limbs::of_bytes(&limbs(done.instr.pc))
    }

    fn fill(m: &LinkColumns, rest: &mut [Fe]) {
        rest.copy_from_slice(&auipc_cells(m));
    }
}

/// The own part of the table of JALR. It has no values.
#[derive(Clone, Copy, Debug)]
pub struct JalrCore;

/// The halves of the sum, its remainder, and the return address.
#[tactic(auto, unfolding(adapter_mem::specs::Pointer::pointer_constraints))]
fn jalr_constraints(valid: Fe, pc: Fe, m: &LinkColumns) -> [Fe; 4]
    ensures { result ≡ jalr_constraints field valid pc m.now }
{
    let [low, high] = pointer_constraints(&m.word, &m.imm, m.low, m.high);
    let link = valid.mul(link_difference(&m.new, pc));
    [low, high, bit(m.parity), link]
}

/// Half the low half less its remainder, the high half, and the return address.
fn jalr_ranges(m: &LinkColumns) -> [Ranged; 6]
    ensures { result ≡ jalr_ranges field m.now }
{
    let half = part(element(1_006_632_961), m.low, m.parity);
    let low = with_bits(half, Fe::of_u16(15));
    let high = with_bits(m.high, Fe::of_u16(13));
    let [a, b, c, d] = word_ranges(Fe::of_u16(6), &m.new);
    [low, high, a, b, c, d]
}

/// In the order of the row.
fn jalr_cells(m: &LinkColumns) -> [Fe; 28]
    ensures { result ≡ cells_of jalr_layout m.now }
{
    let (imm, word, new, old) = (m.imm, m.word, m.new, m.old);
    let (r, t) = (m.read, m.wrote);
    [
        m.rd, m.rs1, m.write, imm.x0, imm.x1, imm.x2, imm.x3, word.x0, word.x1, word.x2, word.x3,
        new.x0, new.x1, new.x2, new.x3, old.x0, old.x1, old.x2, old.x3, m.low, m.high, m.parity,
        r.before, r.lo, r.hi, t.before, t.lo, t.hi,
    ]
}

impl LinkCore for JalrCore {
    ghost use Rattle.std.specs.Prelude.{refl};
    ghost use Rattle.chip_jump.specs.lemmas.Cores.{jalr_laws};

    const FLAGS: usize = 1;

    const REST: usize = 28;

    const SLOTS: u16 = 2;

    ghost FLAGS = { 1 };

    ghost REST = { 28 };

    ghost SLOTS = { 2 };

    ghost link = { jalr_link };

    ghost sizes = { (refl, refl, refl) };

    ghost laws = { jalr_laws };

    fn reads() -> bool {
        true
    }

    fn owns(op: u8) -> bool {
        op == opcode::JALR
    }

    fn opcode(flags: &[Fe]) -> Fe {
        air_core::opcode(&[flags[0]], &[opcode::JALR as u16])
    }

    #[tactic(auto, unfolding(vm_field::specs::Limbs::limbs_at))]
    fn read(rest: &[Fe]) -> LinkColumns {
        LinkColumns {
            rd: rest[0],
            rs1: rest[1],
            write: rest[2],
            imm: Limbs::read(rest, 3),
            word: Limbs::read(rest, 7),
            new: Limbs::read(rest, 11),
            old: Limbs::read(rest, 15),
            low: rest[19],
            high: rest[20],
            parity: rest[21],
            read: gap_at(rest, 22),
            wrote: gap_at(rest, 25),
            ..NO_COLUMNS
        }
    }

    fn next(pc: Fe, flags: &[Fe], m: &LinkColumns) -> Fe {
        pointer(m.low, m.high, m.parity)
    }

    #[tactic(auto, unfolding(adapter_mem::specs::Pointer::pointer_constraints))]
    fn constraints() -> u32 {
        4
    }

    fn first_broken(from: u32, pc: Fe, flags: &[Fe], m: &LinkColumns) -> Option<u32> {
        first_nonzero(from, &jalr_constraints(flag_sum(flags), pc, m))
    }

    fn lookups<S: EventSink>(
        valid: Fe,
        flags: &[Fe],
        m: &LinkColumns,
        sink: &mut S,
    ) -> Result<(), OutOfMemory> {
        emit_ranged(valid, &jalr_ranges(m), sink)
    }

    fn place(op: u8) -> usize {
        0
    }

    fn word(done: &StepRecord) -> Limbs {
        let base = access_at(&done.accesses, 0).access.old;
        Limbs::of_bytes(&base)
    }

    fn fill(m: &LinkColumns, rest: &mut [Fe]) {
        rest.copy_from_slice(&jalr_cells(m));
    }
}
