//! A condition with the form of a branch around it.

ghost use Rattle.std.specs.Prelude.{◌≡◌, ℕ, ◌+◌, ◌<◌, ◌≤◌, ◌++◌, ◌∷◌, true, List, length, take, slice_index};
ghost use Rattle.air_core.specs.Ring.{field, cell, cells};
ghost use Rattle.chip_branch.specs.Branch.{branch_form, branch_touches, branch_numbers, left_of, right_of, left_filled, right_filled, own_filled, words_filled, times_filled};

use crate::Condition;
use adapter_regs::{access_at, gap_at, gap_of, next_by, register_read};
use air_core::{EventSink, HintWord, OutOfMemory, element, flag_sum};
use gadget_limbs::put;
use gadget_time::{FormChip, TableForm, Touch, emit_touches, touches_broken};
use std::marker::PhantomData;
use vm_field::{Fe, Limbs, MODULUS};
use vm_isa::StepRecord;

/// The form of a condition. It has no values.
#[derive(Drop)]
pub struct BranchForm<C: Condition> {
    condition: PhantomData<C>,
}

/// The table of a condition, whose times have HI bits above the lower 16.
pub type BranchChip<C, const HI: u32> = FormChip<BranchForm<C>, HI>;

/// Where the condition's own columns begin, behind the flags.
const OWN_FROM: usize = 11;

#[tactic(auto, unfolding(vm_field::specs::Limbs::limbs_at))]
fn left_of(rest: &[Fe]) -> Limbs
    requires { 7 ≤ length rest.now }
    ensures { result ≡ left_of field rest.now }
{
    Limbs::read(rest, 3)
}

#[tactic(auto, unfolding(vm_field::specs::Limbs::limbs_at))]
fn right_of(rest: &[Fe]) -> Limbs
    requires { 11 ≤ length rest.now }
    ensures { result ≡ right_of field rest.now }
{
    Limbs::read(rest, 7)
}

fn own_of<C: Condition>(rest: &[Fe]) -> &[Fe]
    requires { length rest.now ≡ 17 + C.condition.own }
    ensures long { length result.now ≡ C.condition.own }
    ensures is { result.now ≡ cells (cell field rest.now) 11 C.condition.own }
{
    let own = C::OWN;
    &rest[OWN_FROM..OWN_FROM + own]
}

/// Both words are read.
#[tactic(auto, unfolding(crate::specs::Branch::branch_touches))]
fn touches<C: Condition>(valid: Fe, rest: &[Fe]) -> [Touch; 2]
    requires { length rest.now ≡ 17 + C.condition.own }
    ensures { result ≡ branch_touches field C.condition.own valid rest.now }
{
    let own = C::OWN;
    let first = gap_at(rest, 11 + own);
    let second = gap_at(rest, 14 + own);
    [
        register_read(valid, 0, rest[0], &left_of(rest), first),
        register_read(valid, 1, rest[1], &right_of(rest), second),
    ]
}

#[tactic(auto, unfolding(crate::specs::Branch::branch_numbers))]
fn numbers(pc: Fe, op: Fe, rest: &[Fe]) -> [Fe; 12]
    requires { 11 ≤ length rest.now }
    ensures { result ≡ pc ∷ op ∷ branch_numbers field rest.now }
{
    let zero = Fe::ZERO;
    [
        pc, op, zero, rest[0], rest[1], zero, zero, zero, zero, zero, zero, rest[2],
    ]
}

/// The words that a record reads.
fn words(done: &StepRecord) -> (Limbs, Limbs)
    ensures { (result.0 ≡ left_filled done.now) × (result.1 ≡ right_filled done.now) }
{
    let (first, second) = (access_at(&done.accesses, 0), access_at(&done.accesses, 1));
    let (left, right) = (first.access.old, second.access.old);
    (Limbs::of_bytes(&left), Limbs::of_bytes(&right))
}

/// Writes the registers, the target and both words.
#[tactic(auto, unfolding(vm_field::specs::Limbs::list_of))]
fn put_words(rest: &mut [Fe], done: &StepRecord)
    requires { 11 ≤ length rest.old }
    ensures long { length rest.new ≡ length rest.old }
    ensures so_far { take 11 rest.new ≡ words_filled done.now }
{
    let i = done.instr;
    let (b, c) = words(done);
    let (rs1, rs2) = (Fe::of_u16(i.rs1 as u16), Fe::of_u16(i.rs2 as u16));
    let to = element(i.target % MODULUS);
    let cells = [rs1, rs2, to, b.x0, b.x1, b.x2, b.x3, c.x0, c.x1, c.x2, c.x3];
    put(rest, 0, &cells);
}

/// Writes the condition's own columns.
fn put_own<C: Condition>(rest: &mut [Fe], place: usize, left: Limbs, right: Limbs)
    requires { length rest.old ≡ 17 + C.condition.own }
    ensures long { length rest.new ≡ length rest.old }
    ensures so_far { take (11 + C.condition.own) rest.new ≡ take 11 rest.old ++ C.condition.filled place left right }
{
    let own = C::OWN;
    C::fill(place, left, right, &mut rest[OWN_FROM..OWN_FROM + own]);
}

/// Writes the times of both accesses behind them.
fn put_times(rest: &mut [Fe], at: usize, done: &StepRecord)
    requires { length rest.old ≡ at + 6 }
    ensures { rest.new ≡ take at rest.old ++ times_filled done.now }
{
    let a = gap_of(&access_at(&done.accesses, 0));
    let b = gap_of(&access_at(&done.accesses, 1));
    put(rest, at, &[a.before, a.lo, a.hi, b.before, b.lo, b.hi]);
}

impl<C: Condition> TableForm for BranchForm<C> {
    ghost use Rattle.std.proofs.Common.{refl};
    ghost use Rattle.chip_branch.specs.lemmas.Form.{condition_form};

    const FLAGS: usize = C::FLAGS;

    const REST: usize = 17 + C::OWN;

    const SLOTS: u16 = 2;

    ghost FLAGS = { C.FLAGS };

    ghost REST = { 17 + C.OWN };

    ghost SLOTS = { 2 };

    ghost form = { branch_form C.condition };

    ghost sizes = { (C.sizes.0, rw C.sizes.1 refl, refl) };

    ghost laws = { condition_form C.condition C.laws };

    fn owns(op: u8) -> bool {
        C::owns(op)
    }

    fn opcode(flags: &[Fe]) -> Fe {
        C::opcode(flags)
    }

    fn next(pc: Fe, time: Fe, flags: &[Fe], rest: &[Fe]) -> Fe {
        let taken = C::taken(flags, own_of::<C>(rest), left_of(rest), right_of(rest));
        next_by(pc, rest[2], taken)
    }

    fn numbers(op: Fe, pc: Fe, time: Fe, flags: &[Fe], rest: &[Fe]) -> [Fe; 12] {
        numbers(pc, op, rest)
    }

    fn constraints() -> u32 {
        C::constraints()
    }

    fn first_broken(from: u32, pc: Fe, time: Fe, flags: &[Fe], rest: &[Fe]) -> Option<u32> {
        C::first_broken(
            from,
            flags,
            own_of::<C>(rest),
            left_of(rest),
            right_of(rest),
        )
    }

    fn times_broken(from: u32, pc: Fe, time: Fe, flags: &[Fe], rest: &[Fe]) -> Option<u32> {
        touches_broken(from, time, &touches::<C>(flag_sum(flags), rest))
    }

    fn accesses<S: EventSink>(
        hi: u32,
        pc: Fe,
        time: Fe,
        flags: &[Fe],
        rest: &[Fe],
        sink: &mut S,
    ) -> Result<(), OutOfMemory> {
        emit_touches(hi, time, &touches::<C>(flag_sum(flags), rest), sink)
    }

    fn others<S: EventSink>(
        pc: Fe,
        time: Fe,
        flags: &[Fe],
        rest: &[Fe],
        sink: &mut S,
    ) -> Result<(), OutOfMemory> {
        C::lookups(
            flags,
            own_of::<C>(rest),
            left_of(rest),
            right_of(rest),
            sink,
        )
    }

    fn hint(hi: u32, row: &[Fe]) -> Option<HintWord> {
        None
    }

    fn place(done: &StepRecord) -> usize {
        C::place(done.instr.op)
    }

    fn fill(done: &StepRecord, rest: &mut [Fe]) {
        let own = C::OWN;
        let place = C::place(done.instr.op);
        let (left, right) = words(done);
        put_words(rest, done);
        put_own::<C>(rest, place, left, right);
        put_times(rest, OWN_FROM + own, done);
    }
}
