//! ADD, SUB, XOR, OR and AND, of registers and of a register and an immediate.
#![tactic(auto)]

ghost use Rattle.std.specs.Prelude.{◌≡◌, ◌≤◌, ◌<◌, ◌^◌, length};
ghost use Rattle.air_core.specs.First.{first_from};
ghost use Rattle.air_core.specs.Ring.{field};
ghost use Rattle.chip_alu.specs.Alu.{alu_sums, operation, result_of};

pub mod laws;
#[cfg(test)]
mod tests;

use adapter_regs::{RegsChip, RegsCore};
use air_core::{EventSink, OutOfMemory, first, flag_sum};
use gadget_limbs::{OperationFlags, emit_lookups};
use vm_field::{Fe, Limbs};
use vm_isa::opcode;

/// The own part of the table: five flags, and the limbs of the result. It has no values.
#[derive(Clone, Copy, Debug)]
pub struct AluCore;

/// The table of sums, differences and bitwise operations, whose times have HI bits above the lower 16.
pub type AluAt<const HI: u32> = RegsChip<AluCore, HI>;

/// The table with times of 24 bits.
pub type Alu = AluAt<8>;

/// The opcode of each flag.
const OPCODES: [u16; 5] = [
    opcode::ADD as u16,
    opcode::SUB as u16,
    opcode::XOR as u16,
    opcode::OR as u16,
    opcode::AND as u16,
];

/// The flags by their operations.
fn operation(flags: &[Fe]) -> OperationFlags
    requires { length flags.now ≡ 5 }
    ensures { result ≡ operation field flags.now }
{
    OperationFlags {
        valid: flag_sum(flags),
        sums: flags[0].add(flags[1]),
        xor: flags[2],
        or: flags[3],
        and: flags[4],
    }
}

/// The limbs of the result.
#[tactic(auto, unfolding(vm_field::specs::Limbs::limbs_at))]
fn result_of(own: &[Fe]) -> Limbs
    requires { length own.now ≡ 4 }
    ensures { result ≡ result_of field own.now }
{
    Limbs::read(own, 0)
}

/// The words add up to the result under one gate, and the result and the second word to the first under the other.
fn sums_broken(from: u32, add: Fe, sub: Fe, a: Limbs, b: Limbs, c: Limbs) -> Option<u32>
    requires { from < 2 ^ 17 }
    ensures { result ≡ first_from from (alu_sums field add sub a b c) }
{
    let (new, left, right) = (a.array(), b.array(), c.array());
    let sums = gadget_limbs::first_broken(from, add, &left, &right, &new);
    let differences = gadget_limbs::first_broken(from + 4, sub, &new, &right, &left);
    first(sums, differences)
}

impl RegsCore for AluCore {
    ghost use Rattle.std.specs.Prelude.{refl};
    ghost use Rattle.chip_alu.specs.Alu.{alu_core};
    ghost use Rattle.chip_alu.specs.lemmas.AluLaws.{alu_laws};

    const FLAGS: usize = 5;

    const OWN: usize = 4;

    const WORDS: usize = 8;

    ghost FLAGS = { 5 };

    ghost OWN = { 4 };

    ghost WORDS = { 8 };

    ghost core = { alu_core };

    ghost sizes = { (refl, refl, refl) };

    ghost laws = { alu_laws };

    fn immediates() -> bool {
        true
    }

    fn owns(op: u8) -> bool {
        opcode::ADD <= op && op <= opcode::AND
    }

    fn opcode(flags: &[Fe]) -> Fe {
        let flags = [flags[0], flags[1], flags[2], flags[3], flags[4]];
        air_core::opcode(&flags, &OPCODES)
    }

    fn new_word(flags: &[Fe], own: &[Fe], left: Limbs, right: Limbs) -> Limbs {
        result_of(own)
    }

    fn constraints() -> u32 {
        8
    }

    fn first_broken(from: u32, flags: &[Fe], own: &[Fe], left: Limbs, right: Limbs) -> Option<u32> {
        sums_broken(from, flags[0], flags[1], result_of(own), left, right)
    }

    fn lookups<S: EventSink>(
        flags: &[Fe],
        own: &[Fe],
        left: Limbs,
        right: Limbs,
        sink: &mut S,
    ) -> Result<(), OutOfMemory> {
        emit_lookups(&operation(flags), result_of(own), left, right, sink)
    }

    fn place(op: u8, left: Limbs, right: Limbs) -> usize {
        (op - opcode::ADD) as usize
    }

    fn fill(place: usize, left: Limbs, right: Limbs, new: Limbs, own: &mut [Fe]) {
        own.copy_from_slice(&new.array());
    }
}
