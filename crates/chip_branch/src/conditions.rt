//! The two conditions: whether two words are the same, and which of them is below the other.

ghost use Rattle.std.specs.Prelude.{◌≡◌, ◌≢◌, length};
ghost use Rattle.vm_field.specs.Field.{field_sub};
ghost use Rattle.air_core.specs.Ring.{field};
ghost use Rattle.chip_branch.specs.Conditions.{apart_by, equal_constraints, either_way, inverse_of, equal_cells, signed_by};

use crate::Condition;
use air_core::{EventSink, OutOfMemory, bit, first_nonzero, flag_sum, gated_difference};
use gadget_limbs::{emit_ranges, fill_less, less_broken, less_ranges};
use vm_field::{Fe, Limbs};
use vm_isa::opcode;

/// The condition of BEQ and BNE: whether the words are the same, and a factor for each limb. It has no values.
#[derive(Clone, Copy, Debug)]
pub struct EqualCondition;

/// The sum of factor * (left - right).
#[tactic(auto, unfolding(crate::specs::Conditions::apart_by))]
fn apart_by(own: &[Fe], x: Limbs, y: Limbs) -> Fe
    requires { length own.now ≡ 5 }
    ensures { result ≡ apart_by field own.now x y }
{
    own[1]
        .mul(x.x0.sub(y.x0))
        .add(own[2].mul(x.x1.sub(y.x1)))
        .add(own[3].mul(x.x2.sub(y.x2)))
        .add(own[4].mul(x.x3.sub(y.x3)))
}

#[tactic(auto, unfolding(crate::specs::Conditions::equal_constraints))]
fn equal_constraints(valid: Fe, own: &[Fe], x: Limbs, y: Limbs) -> [Fe; 6]
    requires { length own.now ≡ 5 }
    ensures { result ≡ equal_constraints field valid own.now x y }
{
    let same = own[0];
    [
        bit(same),
        gated_difference(same, x.x0, y.x0),
        gated_difference(same, x.x1, y.x1),
        gated_difference(same, x.x2, y.x2),
        gated_difference(same, x.x3, y.x3),
        valid.mul(Fe::ONE.sub(same)).sub(apart_by(own, x, y)),
    ]
}

/// straight * x + turned * (1 - x)
#[tactic(auto, unfolding(crate::specs::Conditions::either_way))]
fn either_way(straight: Fe, turned: Fe, x: Fe) -> Fe
    ensures { result ≡ either_way field straight turned x }
{
    straight.mul(x).add(turned.mul(Fe::ONE.sub(x)))
}

/// The inverse of an element that isn't 0.
fn inverse_of(x: Fe) -> Fe
    requires { x ≢ 0 }
    ensures { result ≡ inverse_of x }
{
    match x.inverse() {
        Some(inverse) => inverse,
        None => Fe::ZERO,
    }
}

/// What the factor of a limb is where the limbs differ.
fn factor(x: Fe, y: Fe) -> Fe
    requires { x ≢ y }
    ensures { result ≡ inverse_of (field_sub x y) }
{
    inverse_of(x.sub(y))
}

/// The columns that two words fill.
#[tactic(auto, unfolding(crate::specs::Conditions::equal_cells))]
fn equal_cells(x: Limbs, y: Limbs) -> [Fe; 5]
    ensures { result ≡ equal_cells x y }
{
    let (zero, one) = (Fe::ZERO, Fe::ONE);
    if x.x0 != y.x0 {
        [zero, factor(x.x0, y.x0), zero, zero, zero]
    } else if x.x1 != y.x1 {
        [zero, zero, factor(x.x1, y.x1), zero, zero]
    } else if x.x2 != y.x2 {
        [zero, zero, zero, factor(x.x2, y.x2), zero]
    } else if x.x3 != y.x3 {
        [zero, zero, zero, zero, factor(x.x3, y.x3)]
    } else {
        [one, zero, zero, zero, zero]
    }
}

impl Condition for EqualCondition {
    ghost use Rattle.std.specs.Prelude.{refl};
    ghost use Rattle.chip_branch.specs.Conditions.{equal_condition};
    ghost use Rattle.chip_branch.specs.lemmas.Conditions.{equal_laws};

    const FLAGS: usize = 2;

    const OWN: usize = 5;

    ghost FLAGS = { 2 };

    ghost OWN = { 5 };

    ghost condition = { equal_condition };

    ghost sizes = { (refl, refl) };

    ghost laws = { equal_laws };

    fn owns(op: u8) -> bool {
        op == opcode::BEQ || op == opcode::BNE
    }

    fn opcode(flags: &[Fe]) -> Fe {
        let opcodes = [opcode::BEQ as u16, opcode::BNE as u16];
        air_core::opcode(&[flags[0], flags[1]], &opcodes)
    }

    fn taken(flags: &[Fe], own: &[Fe], left: Limbs, right: Limbs) -> Fe {
        either_way(flags[0], flags[1], own[0])
    }

    fn constraints() -> u32 {
        6
    }

    fn first_broken(from: u32, flags: &[Fe], own: &[Fe], left: Limbs, right: Limbs) -> Option<u32> {
        first_nonzero(from, &equal_constraints(flag_sum(flags), own, left, right))
    }

    fn lookups<S: EventSink>(
        flags: &[Fe],
        own: &[Fe],
        left: Limbs,
        right: Limbs,
        sink: &mut S,
    ) -> Result<(), OutOfMemory> {
        Ok(())
    }

    fn place(op: u8) -> usize {
        if op == opcode::BEQ { 0 } else { 1 }
    }

    fn fill(place: usize, left: Limbs, right: Limbs, own: &mut [Fe]) {
        own.copy_from_slice(&equal_cells(left, right));
    }
}

/// The condition of BLT, BLTU, BGE and BGEU: the columns of LT. It has no values.
#[derive(Clone, Copy, Debug)]
pub struct OrderCondition;

/// The opcode of each flag of that.
const ORDER_OPCODES: [u16; 4] = [
    opcode::BLT as u16,
    opcode::BLTU as u16,
    opcode::BGE as u16,
    opcode::BGEU as u16,
];

/// 1 where words are signed.
fn signed_by(flags: &[Fe]) -> Fe
    requires { length flags.now ≡ 4 }
    ensures { result ≡ signed_by field flags.now }
{
    flags[0].add(flags[2])
}

impl Condition for OrderCondition {
    ghost use Rattle.std.specs.Prelude.{refl};
    ghost use Rattle.chip_branch.specs.Conditions.{order_condition};
    ghost use Rattle.chip_branch.specs.lemmas.Conditions.{order_laws};

    const FLAGS: usize = 4;

    const OWN: usize = 8;

    ghost FLAGS = { 4 };

    ghost OWN = { 8 };

    ghost condition = { order_condition };

    ghost sizes = { (refl, refl) };

    ghost laws = { order_laws };

    fn owns(op: u8) -> bool {
        opcode::BLT <= op && op <= opcode::BGEU
    }

    fn opcode(flags: &[Fe]) -> Fe {
        let flags = [flags[0], flags[1], flags[2], flags[3]];
        air_core::opcode(&flags, &ORDER_OPCODES)
    }

    fn taken(flags: &[Fe], own: &[Fe], left: Limbs, right: Limbs) -> Fe {
        let below = flags[0].add(flags[1]);
        let above = flags[2].add(flags[3]);
        either_way(below, above, own[7])
    }

    fn constraints() -> u32 {
        17
    }

    fn first_broken(from: u32, flags: &[Fe], own: &[Fe], left: Limbs, right: Limbs) -> Option<u32> {
        less_broken(from, &left.array(), &right.array(), own)
    }

    fn lookups<S: EventSink>(
        flags: &[Fe],
        own: &[Fe],
        left: Limbs,
        right: Limbs,
        sink: &mut S,
    ) -> Result<(), OutOfMemory> {
        let ranges = less_ranges::<4>(signed_by(flags), own);
        emit_ranges(flag_sum(flags), Fe::of_u16(8), &ranges, sink)
    }

    fn place(op: u8) -> usize {
        (op - opcode::BLT) as usize
    }

    fn fill(place: usize, left: Limbs, right: Limbs, own: &mut [Fe]) {
        fill_less(place % 2 == 0, &left.array(), &right.array(), own);
    }
}
