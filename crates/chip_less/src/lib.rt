//! SLT and SLTU, of registers and of a register and an immediate.
#![tactic(auto)]

ghost use Rattle.std.specs.Prelude.{◌≡◌, length};
ghost use Rattle.air_core.specs.Ring.{field};
ghost use Rattle.chip_less.specs.Less.{result_of};

pub mod laws;
#[cfg(test)]
mod tests;

use adapter_regs::{RegsChip, RegsCore};
use air_core::{EventSink, OutOfMemory, flag_sum};
use gadget_limbs::{emit_ranges, fill_less, less_broken, less_ranges};
use vm_field::{Fe, Limbs};
use vm_isa::opcode;

/// The own part of the table: two flags, and the columns of LT. It has no values.
#[derive(Clone, Copy, Debug)]
pub struct LessCore;

/// The table of comparisons whose answer is a word, whose times have HI bits above the lower 16.
pub type LessAt<const HI: u32> = RegsChip<LessCore, HI>;

/// The table with times of 24 bits.
pub type Less = LessAt<8>;

/// The opcode of each flag.
const OPCODES: [u16; 2] = [opcode::SLT as u16, opcode::SLTU as u16];

/// The answer as a word.
fn result_of(own: &[Fe]) -> Limbs
    requires { length own.now ≡ 8 }
    ensures { result ≡ result_of field own.now }
{
    Limbs {
        x0: own[7],
        x1: Fe::ZERO,
        x2: Fe::ZERO,
        x3: Fe::ZERO,
    }
}

impl RegsCore for LessCore {
    ghost use Rattle.std.specs.Prelude.{refl};
    ghost use Rattle.chip_less.specs.Less.{less_core};
    ghost use Rattle.chip_less.specs.lemmas.LessLaws.{less_laws};

    const FLAGS: usize = 2;

    const OWN: usize = 8;

    const WORDS: usize = 8;

    ghost FLAGS = { 2 };

    ghost OWN = { 8 };

    ghost WORDS = { 8 };

    ghost core = { less_core };

    ghost sizes = { (refl, refl, refl) };

    ghost laws = { less_laws };

    fn immediates() -> bool {
        true
    }

    fn owns(op: u8) -> bool {
        op == opcode::SLT || op == opcode::SLTU
    }

    fn opcode(flags: &[Fe]) -> Fe {
        air_core::opcode(&[flags[0], flags[1]], &OPCODES)
    }

    fn new_word(flags: &[Fe], own: &[Fe], left: Limbs, right: Limbs) -> Limbs {
        result_of(own)
    }

    fn constraints() -> u32 {
        17
    }

    fn first_broken(from: u32, flags: &[Fe], own: &[Fe], left: Limbs, right: Limbs) -> Option<u32> {
        less_broken(from, &left.array(), &right.array(), own)
    }

    fn lookups<S: EventSink>(
        flags: &[Fe],
        own: &[Fe],
        left: Limbs,
        right: Limbs,
        sink: &mut S,
    ) -> Result<(), OutOfMemory> {
        let ranges = less_ranges::<4>(flags[0], own);
        emit_ranges(flag_sum(flags), Fe::of_u16(8), &ranges, sink)
    }

    fn place(op: u8, left: Limbs, right: Limbs) -> usize {
        if op == opcode::SLT { 0 } else { 1 }
    }

    fn fill(place: usize, left: Limbs, right: Limbs, new: Limbs, own: &mut [Fe]) {
        fill_less(place == 0, &left.array(), &right.array(), own);
    }
}
