//! The columns of the register form, written part behind part.

ghost use Rattle.std.specs.Prelude.{◌≡◌, ℕ, ◌+◌, ◌≤◌, ◌++◌, true, false, length, take};
ghost use Rattle.adapter_regs.specs.Regs.{words_from, regs_cells, time_cells};

use crate::Regs;
use gadget_limbs::put;
use vm_field::Fe;

#[tactic(auto, unfolding(crate::specs::Regs::regs_cells, vm_field::specs::Limbs::list_of))]
fn with_immediates(r: &Regs) -> [Fe; 20]
    ensures { result ≡ regs_cells true r.now }
{
    let (imm, left, right, old) = (r.imm, r.left, r.right, r.old);
    [
        r.rd, r.rs1, r.rs2, r.use_imm, imm.x0, imm.x1, imm.x2, imm.x3, left.x0, left.x1, left.x2,
        left.x3, right.x0, right.x1, right.x2, right.x3, old.x0, old.x1, old.x2, old.x3,
    ]
}

#[tactic(auto, unfolding(crate::specs::Regs::regs_cells, vm_field::specs::Limbs::list_of))]
fn without_immediates(r: &Regs) -> [Fe; 15]
    ensures { result ≡ regs_cells false r.now }
{
    let (left, right, old) = (r.left, r.right, r.old);
    [
        r.rd, r.rs1, r.rs2, left.x0, left.x1, left.x2, left.x3, right.x0, right.x1, right.x2,
        right.x3, old.x0, old.x1, old.x2, old.x3,
    ]
}

#[tactic(auto, unfolding(crate::specs::Regs::time_cells))]
fn gaps(r: &Regs) -> [Fe; 9]
    ensures { result ≡ time_cells r.now }
{
    let (a, b, c) = (r.first, r.second, r.third);
    [
        a.before, a.lo, a.hi, b.before, b.lo, b.hi, c.before, c.lo, c.hi,
    ]
}

/// Writes the columns of registers and words.
pub fn put_cells(rest: &mut [Fe], immediates: bool, regs: &Regs)
    requires { words_from immediates + 12 ≤ length rest.old }
    ensures long { length rest.new ≡ length rest.old }
    ensures so_far { take (words_from immediates + 12) rest.new ≡ regs_cells immediates regs.now }
{
    if immediates {
        put(rest, 0, &with_immediates(regs));
    } else {
        put(rest, 0, &without_immediates(regs));
    }
}

/// Writes the columns of the accesses' times from a place on.
pub fn put_times(rest: &mut [Fe], at: usize, regs: &Regs)
    requires { length rest.old ≡ at + 9 }
    ensures { rest.new ≡ take at rest.old ++ time_cells regs.now }
{
    put(rest, at, &gaps(regs));
}
