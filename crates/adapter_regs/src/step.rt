//! The columns of a step of the register form.

ghost use Rattle.std.specs.Prelude.{◌≡◌, ℕ, ◌<◌};
ghost use Rattle.vm_field.specs.Field.{modulus};
ghost use Rattle.adapter_regs.specs.Regs.{last_access, right_filled, second_filled, regs_filled, new_filled};

use crate::{Regs, access_at};
use air_core::element;
use gadget_time::{Gap, gap_between};
use vm_field::{Fe, Limbs};
use vm_isa::{StepRecord, TimedAccess};

#[tactic(auto, unfolding(crate::specs::Regs::last_access))]
fn last_access(done: &StepRecord) -> TimedAccess
    ensures { result ≡ last_access done.now }
{
    if done.instr.use_imm {
        access_at(&done.accesses, 1)
    } else {
        access_at(&done.accesses, 2)
    }
}

#[tactic(auto, unfolding(crate::specs::Regs::right_filled))]
fn right_word(done: &StepRecord) -> Limbs
    ensures { result ≡ right_filled done.now }
{
    if done.instr.use_imm {
        Limbs::of_bytes(&done.instr.imm)
    } else {
        let access = access_at(&done.accesses, 1).access;
        Limbs::of_bytes(&access.old)
    }
}

#[tactic(auto, unfolding(crate::specs::Regs::second_filled))]
fn second_gap(done: &StepRecord) -> Gap
    ensures { result ≡ second_filled done.now }
{
    if done.instr.use_imm {
        Gap {
            before: Fe::ZERO,
            lo: Fe::ZERO,
            hi: Fe::ZERO,
        }
    } else {
        let access = access_at(&done.accesses, 1);
        gap_between(access.time, access.before)
    }
}

/// The word that the step writes.
#[tactic(auto, unfolding(crate::specs::Regs::new_filled))]
pub fn new_word(done: &StepRecord) -> Limbs
    ensures { result ≡ new_filled done.now }
{
    let access = last_access(done).access;
    Limbs::of_bytes(&access.new)
}

fn byte(number: u8) -> Fe
    ensures { result ≡ number }
{
    Fe::of_u16(number as u16)
}

/// The columns of a step.
#[tactic(auto, unfolding(crate::specs::Regs::regs_filled))]
pub fn filled_regs(done: &StepRecord) -> Regs
    requires pc_low { done.now.instr.pc < modulus }
    requires time_low { done.now.time < modulus }
    ensures { result ≡ regs_filled done.now }
{
    let i = done.instr;
    let first = access_at(&done.accesses, 0);
    let last = last_access(done);
    let left = first.access.old;
    let old = last.access.old;
    Regs {
        pc: element(i.pc),
        time: element(done.time),
        rd: byte(i.rd),
        rs1: byte(i.rs1),
        rs2: byte(i.rs2),
        use_imm: if i.use_imm { Fe::ONE } else { Fe::ZERO },
        imm: Limbs::of_bytes(&i.imm),
        left: Limbs::of_bytes(&left),
        right: right_word(done),
        old: Limbs::of_bytes(&old),
        first: gap_between(first.time, first.before),
        second: second_gap(done),
        third: gap_between(last.time, last.before),
    }
}
