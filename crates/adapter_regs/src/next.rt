//! The next pc of a row that may jump.

ghost use Rattle.std.specs.Prelude.{◌≡◌};
ghost use Rattle.air_core.specs.Ring.{field};
ghost use Rattle.adapter_regs.specs.Next.{next_by};

use vm_field::Fe;

/// pc + 4 + taken * (target - pc - 4): the target where `taken` is 1, and pc + 4 where it is 0.
#[tactic(auto, unfolding(crate::specs::Next::next_by))]
pub fn next_by(pc: Fe, target: Fe, taken: Fe) -> Fe
    ensures { result ≡ next_by field pc target taken }
{
    let four = Fe::of_u16(4);
    pc.add(four).add(taken.mul(target.sub(pc).sub(four)))
}
