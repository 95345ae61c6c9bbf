//! The columns that the tables have among them, and what a row says of them in the same way.

ghost use Rattle.std.specs.Prelude.{◌≡◌, ◌∷◌, ◌≤◌, length, OnOk, OnErr};
ghost use Rattle.air_core.specs.Ring.{field};
ghost use Rattle.air_core.specs.Sheet.{counted};
ghost use Rattle.air_core.specs.Sink.{Handed, HandedSome};
ghost use Rattle.chip_jump.specs.Link.{number_by, link_difference, with_bits, ranged_lines, link_numbers, link_touch, word_ranges, written};

use air_core::{EventSink, OutOfMemory, bus, element, emit_sent};
use gadget_time::{Gap, Touch, register_touch};
use vm_field::{Fe, Limbs};
use vm_isa::{VmInstr, opcode};
use vm_word::{limbs, of_limbs};

/// The columns behind the flags: the registers, `write` and the target of the program row, the immediate; the word that is
/// read, or that of pc; the new word and the old one; the halves of a sum and its remainder; and the times of the read and
/// of the write. A table has some of them.
#[derive(Clone, Copy, Debug)]
pub struct LinkColumns<F = Fe> {
    pub rd: F,
    pub rs1: F,
    pub write: F,
    pub target: F,
    pub imm: Limbs<F>,
    pub word: Limbs<F>,
    pub new: Limbs<F>,
    pub old: Limbs<F>,
    pub low: F,
    pub high: F,
    pub parity: F,
    pub read: Gap<F>,
    pub wrote: Gap<F>,
}

/// No time.
pub const NO_GAP: Gap = Gap {
    before: Fe::ZERO,
    lo: Fe::ZERO,
    hi: Fe::ZERO,
};

/// What a table has no column for is 0.
pub const NO_COLUMNS: LinkColumns = LinkColumns {
    rd: Fe::ZERO,
    rs1: Fe::ZERO,
    write: Fe::ZERO,
    target: Fe::ZERO,
    imm: Limbs::<Fe>::ZERO,
    word: Limbs::<Fe>::ZERO,
    new: Limbs::<Fe>::ZERO,
    old: Limbs::<Fe>::ZERO,
    low: Fe::ZERO,
    high: Fe::ZERO,
    parity: Fe::ZERO,
    read: NO_GAP,
    wrote: NO_GAP,
};

/// A number that is looked up, with how many bits.
#[derive(Clone, Copy, Debug)]
pub struct Ranged<F = Fe> {
    pub number: F,
    pub bits: F,
}

pub fn with_bits(number: Fe, bits: Fe) -> Ranged
    ensures { result ≡ with_bits number bits }
{
    Ranged { number, bits }
}

/// The three lower limbs of a word with 8 bits, and the top one with so many.
pub fn word_ranges(bits: Fe, w: &Limbs) -> [Ranged; 4]
    ensures { result ≡ word_ranges field bits w.now }
{
    let byte = Fe::of_u16(8);
    [
        with_bits(w.x0, byte),
        with_bits(w.x1, byte),
        with_bits(w.x2, byte),
        with_bits(w.x3, bits),
    ]
}

/// Each number is looked up.
pub fn emit_ranged<S: EventSink>(
    count: Fe,
    numbers: &[Ranged],
    sink: &mut S,
) -> Result<(), OutOfMemory>
    requires room { length numbers.now ≤ S.room sink.old }
    ensures ok { OnOk result (Handed S.holds S.room sink.old sink.new (counted (ranged_lines field count numbers.now))) }
    ensures err { OnErr result (HandedSome S.holds S.room sink.old sink.new (counted (ranged_lines field count numbers.now))) }
{
    for r in numbers {
        emit_sent(bus::RANGE, count, &[r.number, r.bits], sink)?;
    }
    Ok(())
}

/// The number that the limbs of a word make.
#[tactic(auto, unfolding(crate::specs::Link::number_by))]
pub fn number_by(w: &Limbs) -> Fe
    ensures { result ≡ number_by field w.now }
{
    let upper = element(16_777_216).mul(w.x3);
    w.x0.add(Fe::of_u16(256).mul(w.x1))
        .add(element(65536).mul(w.x2))
        .add(upper)
}

/// The number less pc + 4: 0 where the word is the return address.
#[tactic(auto, unfolding(crate::specs::Link::link_difference))]
pub fn link_difference(w: &Limbs, pc: Fe) -> Fe
    ensures { result ≡ link_difference field w.now pc }
{
    number_by(w).sub(pc).sub(Fe::of_u16(4))
}

/// The program row with an opcode.
#[tactic(auto, unfolding(crate::specs::Link::link_numbers))]
pub fn numbers(pc: Fe, op: Fe, m: &LinkColumns) -> [Fe; 12]
    ensures { result ≡ pc ∷ op ∷ link_numbers field m.now }
{
    let zero = Fe::ZERO;
    let imm = m.imm;
    [
        pc, op, m.rd, m.rs1, zero, m.write, zero, imm.x0, imm.x1, imm.x2, imm.x3, m.target,
    ]
}

/// The access that writes, at a slot.
pub fn write_touch(valid: Fe, slot: u16, m: &LinkColumns) -> Touch
    ensures { result ≡ link_touch field valid slot m.now }
{
    register_touch(valid.mul(m.write), slot, m.rd, m.old, m.new, m.wrote)
}

/// The word that an instruction writes: the immediate, the sum of pc and it, or the return address.
#[tactic(auto, unfolding(crate::specs::Link::written))]
pub fn written(i: &VmInstr) -> [u8; 4]
    ensures { result ≡ written i.now }
{
    match i.op {
        opcode::LUI => i.imm,
        opcode::AUIPC => limbs(i.pc.wrapping_add(of_limbs(i.imm))),
        _ => limbs(i.pc.wrapping_add(4)),
    }
}

pub fn byte(number: u8) -> Fe
    ensures { result ≡ number }
{
    Fe::of_u16(number as u16)
}
