//! DIV, DIVU, REM and REMU, of two registers.
#![tactic(auto)]

mod columns;
mod division;
pub mod laws;
#[cfg(test)]
mod tests;

use adapter_regs::{RegsChip, RegsCore};
use air_core::{EventSink, OutOfMemory, flag_sum};
use columns::{new_word, signed};
use division::{CONSTRAINTS, divrem_broken, emit_division};
use gadget_divide::fill_divided;
use gadget_products::word_of;
use vm_field::{Fe, Limbs};
use vm_isa::opcode;

/// The own part of the table: four flags, and the columns of a division. It has no values.
#[derive(Clone, Copy, Debug)]
pub struct DivRemCore;

/// The table of quotients and remainders, whose times have HI bits above the lower 16.
pub type DivRemAt<const HI: u32> = RegsChip<DivRemCore, HI>;

/// The table with times of 24 bits.
pub type DivRem = DivRemAt<8>;

/// The opcode of each flag.
const OPCODES: [u16; 4] = [
    opcode::DIV as u16,
    opcode::DIVU as u16,
    opcode::REM as u16,
    opcode::REMU as u16,
];

impl RegsCore for DivRemCore {
    ghost use Rattle.std.specs.Prelude.{refl};
    ghost use Rattle.chip_divrem.specs.DivRem.{divrem_core};
    ghost use Rattle.chip_divrem.specs.lemmas.DivRemLaws.{divrem_laws};

    const FLAGS: usize = 4;

    const OWN: usize = 35;

    const WORDS: usize = 3;

    ghost FLAGS = { 4 };

    ghost OWN = { 35 };

    ghost WORDS = { 3 };

    ghost core = { divrem_core };

    ghost sizes = { (refl, refl, refl) };

    ghost laws = { divrem_laws };

    fn immediates() -> bool {
        false
    }

    fn owns(op: u8) -> bool {
        opcode::DIV <= op && op <= opcode::REMU
    }

    fn opcode(flags: &[Fe]) -> Fe {
        air_core::opcode(&[flags[0], flags[1], flags[2], flags[3]], &OPCODES)
    }

    fn new_word(flags: &[Fe], own: &[Fe], left: Limbs, right: Limbs) -> Limbs {
        new_word(flags, own)
    }

    fn constraints() -> u32 {
        CONSTRAINTS
    }

    fn first_broken(from: u32, flags: &[Fe], own: &[Fe], left: Limbs, right: Limbs) -> Option<u32> {
        divrem_broken(from, flag_sum(flags), signed(flags), own, left, right)
    }

    fn lookups<S: EventSink>(
        flags: &[Fe],
        own: &[Fe],
        left: Limbs,
        right: Limbs,
        sink: &mut S,
    ) -> Result<(), OutOfMemory> {
        emit_division(flag_sum(flags), signed(flags), own, &left, &right, sink)
    }

    fn place(op: u8, left: Limbs, right: Limbs) -> usize {
        (op - opcode::DIV) as usize
    }

    fn fill(place: usize, left: Limbs, right: Limbs, new: Limbs, own: &mut [Fe]) {
        fill_divided(place == 0 || place == 2, word_of(left), word_of(right), own)
    }
}
