//! The columns of the register form, and its parts of a row's constraints and events.

ghost use Rattle.std.specs.Prelude.{◌≡◌, ℕ, ◌+◌, ◌<◌, ◌≤◌, ◌++◌, ◌∷◌, length, slice_index};
ghost use Rattle.air_core.specs.Ring.{field};
ghost use Rattle.adapter_regs.specs.Regs.{regs_of, words_from, first_touch, second_touch, third_touch, regs_touches, regs_numbers, immediate_constraints, regs_cells, time_cells};

use crate::{gap_at, register_read, register_touch};
use air_core::gated_difference;
use gadget_time::{Gap, Touch};
use vm_field::{Fe, Limbs};

/// The columns that each table of the register form has. Without immediates `use_imm` and `imm` are 0.
#[derive(Clone, Copy, Debug)]
pub struct Regs<F = Fe> {
    pub pc: F,
    pub time: F,
    pub rd: F,
    pub rs1: F,
    pub rs2: F,
    pub use_imm: F,
    pub imm: Limbs<F>,
    pub left: Limbs<F>,
    pub right: Limbs<F>,
    pub old: Limbs<F>,
    pub first: Gap<F>,
    pub second: Gap<F>,
    pub third: Gap<F>,
}

/// Where the words begin behind the flags.
pub fn words_from(immediates: bool) -> usize
    ensures { result ≡ words_from immediates }
{
    if immediates { 8 } else { 3 }
}

/// The columns of a row by its parts, of which `own` are the table's own.
#[tactic(auto, unfolding(crate::specs::Regs::regs_of, vm_field::specs::Limbs::limbs_at))]
pub fn read(immediates: bool, own: usize, pc: Fe, time: Fe, rest: &[Fe]) -> Regs
    requires few { own ≤ 65536 }
    requires wide { length rest.now ≡ words_from immediates + 21 + own }
    ensures { result ≡ regs_of field immediates own pc time rest.now }
{
    let words = words_from(immediates);
    let times = words + 12 + own;
    Regs {
        pc,
        time,
        rd: rest[0],
        rs1: rest[1],
        rs2: rest[2],
        use_imm: if immediates { rest[3] } else { Fe::ZERO },
        imm: if immediates {
            Limbs::read(rest, 4)
        } else {
            Limbs::ZERO
        },
        left: Limbs::read(rest, words),
        right: Limbs::read(rest, words + 4),
        old: Limbs::read(rest, words + 8),
        first: gap_at(rest, times),
        second: gap_at(rest, times + 3),
        third: gap_at(rest, times + 6),
    }
}

#[tactic(auto, unfolding(crate::specs::Regs::first_touch))]
fn first_touch(r: &Regs, valid: Fe) -> Touch
    ensures { result ≡ first_touch field r.now valid }
{
    register_read(valid, 0, r.rs1, &r.left, r.first)
}

#[tactic(auto, unfolding(crate::specs::Regs::second_touch))]
fn second_touch(r: &Regs, valid: Fe) -> Touch
    ensures { result ≡ second_touch field r.now valid }
{
    let count = valid.mul(Fe::ONE.sub(r.use_imm));
    register_read(count, 1, r.rs2, &r.right, r.second)
}

#[tactic(auto, unfolding(crate::specs::Regs::third_touch))]
fn third_touch(r: &Regs, valid: Fe, new: Limbs) -> Touch
    ensures { result ≡ third_touch field r.now valid new }
{
    register_touch(valid, 2, r.rd, r.old, new, r.third)
}

/// The constraints that an immediate is the right word.
#[tactic(auto, unfolding(crate::specs::Regs::immediate_constraints))]
pub fn immediate(r: &Regs) -> [Fe; 4]
    ensures { result ≡ immediate_constraints field r.now }
{
    [
        gated_difference(r.use_imm, r.right.x0, r.imm.x0),
        gated_difference(r.use_imm, r.right.x1, r.imm.x1),
        gated_difference(r.use_imm, r.right.x2, r.imm.x2),
        gated_difference(r.use_imm, r.right.x3, r.imm.x3),
    ]
}

/// The three accesses.
pub fn touches(r: &Regs, valid: Fe, new: Limbs) -> [Touch; 3]
    ensures { result ≡ regs_touches field r.now valid new }
{
    let first = first_touch(r, valid);
    let second = second_touch(r, valid);
    let third = third_touch(r, valid, new);
    [first, second, third]
}

/// The program row with an opcode: write is 1, and there is no target.
#[tactic(auto, unfolding(crate::specs::Regs::regs_numbers))]
pub fn numbers(r: &Regs, op: Fe) -> [Fe; 12]
    ensures { result ≡ r.now.pc ∷ op ∷ regs_numbers field r.now }
{
    [
        r.pc,
        op,
        r.rd,
        r.rs1,
        r.rs2,
        Fe::ONE,
        r.use_imm,
        r.imm.x0,
        r.imm.x1,
        r.imm.x2,
        r.imm.x3,
        Fe::ZERO,
    ]
}
