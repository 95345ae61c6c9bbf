//! SLL, SRL and SRA, of registers and of a register and an immediate.
#![tactic(auto)]

ghost use Rattle.std.specs.Prelude.{◌≡◌, ◌<◌, ◌/◌, ◌^◌, ◌∷◌, ◌++◌, nat_eq, length, take};
ghost use Rattle.vm_field.specs.Limbs.{list_of};
ghost use Rattle.air_core.specs.First.{first_from};
ghost use Rattle.air_core.specs.Ring.{field, cell};
ghost use Rattle.gadget_shift.specs.Shift.{shift_filled};
ghost use Rattle.chip_shift.specs.Shift.{new_of, sign_of, sign_fill, shift_constraints_of};

pub mod laws;
#[cfg(test)]
mod tests;

use adapter_regs::{RegsChip, RegsCore};
use air_core::{EventSink, OutOfMemory, bus, element, emit_sent, first, first_nonzero, flag_sum};
use gadget_limbs::{sign_constraints, sign_looked_up};
use gadget_shift::{amount_broken, emit_shift, fill_shift, left_constraints, right_constraints};
use vm_field::{Fe, Limbs};
use vm_isa::opcode;

/// The own part of the table: three flags, and 21 columns. It has no values.
#[derive(Clone, Copy, Debug)]
pub struct ShiftCore;

/// The table of shifts, whose times have HI bits above the lower 16.
pub type ShiftAt<const HI: u32> = RegsChip<ShiftCore, HI>;

/// The table with times of 24 bits.
pub type Shift = ShiftAt<8>;

/// The word that is written.
#[tactic(auto, unfolding(vm_field::specs::Limbs::limbs_at))]
fn new_of(own: &[Fe]) -> Limbs
    requires { length own.now ≡ 21 }
    ensures { result ≡ new_of field own.now }
{
    Limbs::read(own, 17)
}

fn sign_of(own: &[Fe]) -> Fe
    requires { length own.now ≡ 21 }
    ensures { result ≡ sign_of field own.now }
{
    own[16]
}

/// The flag at a place.
fn flag(flags: &[Fe], place: usize) -> Fe
    requires { place < length flags.now }
    ensures { result ≡ cell field flags.now place }
{
    flags[place]
}

/// The place of the first broken constraint of a shift of the word `old`, where the first stands at the place `from`.
fn shift_broken(from: u32, flags: &[Fe], own: &[Fe], old: &Limbs) -> Option<u32>
    requires flags { length flags.now ≡ 3 }
    requires own { length own.now ≡ 21 }
    requires from { from < 2 ^ 17 }
    ensures { result ≡ first_from from (shift_constraints_of field flags.now own.now old.now) }
{
    let (sign, new) = (sign_of(own), new_of(own));
    let amount = amount_broken(from, flag_sum(flags), own);
    let signs = first_nonzero(from + 14, &sign_constraints(sign, flag(flags, 2)));
    let left = left_constraints(flag(flags, 0), own, old, &new);
    let gate = flag(flags, 1).add(flag(flags, 2));
    let right = right_constraints(gate, sign, own, old, &new);
    let words = first(
        first_nonzero(from + 16, &left),
        first_nonzero(from + 32, &right),
    );
    first(amount, first(signs, words))
}

/// The sign bit, at the place of SRA.
fn sign_at(place: usize, top: Fe) -> Fe
    ensures { result ≡ sign_fill place top }
{
    if place == 2 {
        element(top.value() / 128)
    } else {
        Fe::ZERO
    }
}

fn put_shift(place: usize, left: Limbs, amount: Fe, own: &mut [Fe])
    requires { length own.old ≡ 21 }
    ensures long { length own.new ≡ 21 }
    ensures so_far { take 16 own.new ≡ shift_filled (nat_eq place 0) amount left }
{
    fill_shift(place == 0, amount, left, &mut own[..16]);
}

#[tactic(auto, unfolding(vm_field::specs::Limbs::list_of))]
fn put_rest(sign: Fe, new: Limbs, own: &mut [Fe])
    requires { length own.old ≡ 21 }
    ensures { own.new ≡ take 16 own.old ++ (sign ∷ list_of new) }
{
    own[16..].copy_from_slice(&[sign, new.x0, new.x1, new.x2, new.x3]);
}

impl RegsCore for ShiftCore {
    ghost use Rattle.std.specs.Prelude.{refl};
    ghost use Rattle.chip_shift.specs.Shift.{shift_core};
    ghost use Rattle.chip_shift.specs.lemmas.ShiftLaws.{shift_laws};

    const FLAGS: usize = 3;

    const OWN: usize = 21;

    const WORDS: usize = 8;

    ghost FLAGS = { 3 };

    ghost OWN = { 21 };

    ghost WORDS = { 8 };

    ghost core = { shift_core };

    ghost sizes = { (refl, refl, refl) };

    ghost laws = { shift_laws };

    fn immediates() -> bool {
        true
    }

    fn owns(op: u8) -> bool {
        opcode::SLL <= op && op <= opcode::SRA
    }

    fn opcode(flags: &[Fe]) -> Fe {
        let flags = [flags[0], flags[1], flags[2]];
        air_core::opcode(
            &flags,
            &[opcode::SLL as u16, opcode::SRL as u16, opcode::SRA as u16],
        )
    }

    fn new_word(flags: &[Fe], own: &[Fe], left: Limbs, right: Limbs) -> Limbs {
        new_of(own)
    }

    fn constraints() -> u32 {
        48
    }

    fn first_broken(from: u32, flags: &[Fe], own: &[Fe], left: Limbs, right: Limbs) -> Option<u32> {
        shift_broken(from, flags, own, &left)
    }

    fn lookups<S: EventSink>(
        flags: &[Fe],
        own: &[Fe],
        left: Limbs,
        right: Limbs,
        sink: &mut S,
    ) -> Result<(), OutOfMemory> {
        emit_shift(flag_sum(flags), right.x0, own, new_of(own), sink)?;
        let looked_up = sign_looked_up(sign_of(own), left.x3);
        emit_sent(bus::XOR, flag(flags, 2), &looked_up, sink)
    }

    fn place(op: u8, left: Limbs, right: Limbs) -> usize {
        (op - opcode::SLL) as usize
    }

    fn fill(place: usize, left: Limbs, right: Limbs, new: Limbs, own: &mut [Fe]) {
        let sign = sign_at(place, left.x3);
        put_shift(place, left, right.x0, own);
        put_rest(sign, new, own);
    }
}
