//! The columns of a table of the memory form.

ghost use Rattle.std.specs.Prelude.{◌≡◌, ◌+◌, ◌≤◌, ◌∷◌, [], length, OnOk, OnErr};
ghost use Rattle.vm_isa.specs.Instr.{bit_of};
ghost use Rattle.air_core.specs.Ring.{field};
ghost use Rattle.air_core.specs.Sheet.{counted};
ghost use Rattle.air_core.specs.Sink.{Handed, HandedSome};
ghost use Rattle.adapter_mem.specs.Memory.{memory_numbers, pointer_of, address_constraints, address_lines, address_filled, memory_filled, read_touches, write_touches};

use crate::{part, pointer, pointer_constraints};
use air_core::{EventSink, OutOfMemory, element};
use gadget_limbs::emit_ranges;
use gadget_time::{Gap, Touch, access_at, block_touch, gap_of, register_read, register_touch};
use vm_field::{Fe, Limbs};
use vm_isa::{StepRecord, space};

/// The columns that tables of the memory form have among them: the registers and `write` of the program row, the
/// immediate, the word of the base, two further words in the order of their accesses, the halves of the address,
/// the sign, and the times of the accesses. What a table has no column for is 0.
#[derive(Clone, Copy, Debug)]
pub struct MemoryColumns<F = Fe> {
    pub rd: F,
    pub rs1: F,
    pub rs2: F,
    pub write: F,
    pub imm: Limbs<F>,
    pub base: Limbs<F>,
    pub middle: Limbs<F>,
    pub last: Limbs<F>,
    pub low: F,
    pub high: F,
    pub sign: F,
    pub first: Gap<F>,
    pub second: Gap<F>,
    pub third: Gap<F>,
}

/// The program row with an opcode.
#[tactic(auto, unfolding(crate::specs::Memory::memory_numbers))]
pub fn memory_numbers(pc: Fe, op: Fe, m: &MemoryColumns) -> [Fe; 12]
    ensures { result ≡ pc ∷ op ∷ memory_numbers field m.now }
{
    let zero = Fe::ZERO;
    let imm = m.imm;
    [
        pc, op, m.rd, m.rs1, m.rs2, m.write, zero, imm.x0, imm.x1, imm.x2, imm.x3, zero,
    ]
}

/// The pointer of the block, by the shift.
pub fn pointer_of(shift: Fe, m: &MemoryColumns) -> Fe
    ensures { result ≡ pointer_of field shift m.now }
{
    pointer(m.low, m.high, shift)
}

/// The constraints of the address.
pub fn address_constraints(m: &MemoryColumns) -> [Fe; 2]
    ensures { result ≡ address_constraints field m.now }
{
    pointer_constraints(&m.base, &m.imm, m.low, m.high)
}

/// A fourth of the low half less the shift, and the high half are looked up.
pub fn emit_address<S: EventSink>(
    valid: Fe,
    shift: Fe,
    m: &MemoryColumns,
    sink: &mut S,
) -> Result<(), OutOfMemory>
    requires room { 2 ≤ S.room sink.old }
    ensures ok { OnOk result (Handed S.holds S.room sink.old sink.new (counted (address_lines field valid shift m.now))) }
    ensures err { OnErr result (HandedSome S.holds S.room sink.old sink.new (counted (address_lines field valid shift m.now))) }
{
    let quarter = part(element(1_509_949_441), m.low, shift);
    emit_ranges(valid, Fe::of_u16(14), &[quarter], sink)?;
    emit_ranges(valid, Fe::of_u16(13), &[m.high], sink)
}

/// Two registers are read, and a block of a space is written.
pub fn write_touches(
    space: u8,
    valid: Fe,
    block: Fe,
    base: Fe,
    other: Fe,
    m: &MemoryColumns,
    new: Limbs,
) -> [Touch; 3]
    ensures { result ≡ write_touches field space valid block base other m.now new }
{
    let first = register_read(valid, 0, base, &m.base, m.first);
    let second = register_read(valid, 1, other, &m.middle, m.second);
    let third = block_touch(valid, 2, space, block, m.last, new, m.third);
    [first, second, third]
}

/// A register and a block of memory are read, and a register is written where the row says so.
pub fn read_touches(valid: Fe, block: Fe, m: &MemoryColumns, new: Limbs) -> [Touch; 3]
    ensures { result ≡ read_touches field valid block m.now new }
{
    let first = register_read(valid, 0, m.rs1, &m.base, m.first);
    let second = block_touch(valid, 1, space::MEMORY, block, m.middle, m.middle, m.second);
    let third = register_touch(valid.mul(m.write), 2, m.rd, m.last, new, m.third);
    [first, second, third]
}

/// The address of a step: the sum of the base and the immediate.
#[tactic(auto, unfolding(crate::specs::Memory::address_filled))]
pub fn address_filled(done: &StepRecord) -> u32
    ensures { result ≡ address_filled done.now }
{
    let base = access_at(&done.accesses, 0).access.old;
    vm_word::of_limbs(base).wrapping_add(vm_word::of_limbs(done.instr.imm))
}

fn byte(number: u8) -> Fe
    ensures { result ≡ number }
{
    Fe::of_u16(number as u16)
}

fn bit_of(write: bool) -> Fe
    ensures { result ≡ bit_of write }
{
    if write { Fe::ONE } else { Fe::ZERO }
}

/// The columns of a step, as a table has them that names all.
pub fn memory_filled(done: &StepRecord) -> MemoryColumns
    ensures { result ≡ memory_filled done.now }
{
    let i = done.instr;
    let address = address_filled(done);
    let first = access_at(&done.accesses, 0);
    let second = access_at(&done.accesses, 1);
    let third = access_at(&done.accesses, 2);
    let (base, middle, last) = (first.access.old, second.access.old, third.access.old);
    MemoryColumns {
        rd: byte(i.rd),
        rs1: byte(i.rs1),
        rs2: byte(i.rs2),
        write: bit_of(i.write),
        imm: Limbs::of_bytes(&i.imm),
        base: Limbs::of_bytes(&base),
        middle: Limbs::of_bytes(&middle),
        last: Limbs::of_bytes(&last),
        low: element(address % 65536),
        high: element(address / 65536),
        sign: Fe::ZERO,
        first: gap_of(&first),
        second: gap_of(&second),
        third: gap_of(&third),
    }
}
