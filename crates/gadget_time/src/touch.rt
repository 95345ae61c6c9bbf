//! One access of a row.

ghost use Rattle.air_core.specs.Ring.{field};
ghost use Rattle.std.specs.Prelude.{◌≡◌, [], ◌∷◌, ℕ, ◌+◌, ◌<◌, ◌≤◌};
ghost use Rattle.gadget_time.specs.Told.{time_constraint, touch_constraint, gap_filled};

use air_core::element;
use vm_field::{Fe, Limbs, MODULUS};

/// The time of the block's access before, and what lies between, less 1, as its lower 16 bits and the others.
#[derive(Clone, Copy, Debug)]
pub struct Gap<F = Fe> {
    pub before: F,
    pub lo: F,
    pub hi: F,
}

/// One access: it replaces a word of a block, or keeps it, `slot` after the row's time. With a count of
/// 0 there is none.
#[derive(Clone, Copy, Debug)]
pub struct Touch<F = Fe> {
    pub count: F,
    pub slot: F,
    pub space: F,
    pub pointer: F,
    pub old: Limbs<F>,
    pub new: Limbs<F>,
    pub gap: Gap<F>,
}

/// count * (time - before - 1 - lo - 65536 * hi)
#[tactic(auto, unfolding(crate::specs::Told::time_constraint))]
fn time_constraint(count: Fe, time: Fe, gap: &Gap) -> Fe
    ensures { result ≡ time_constraint field count time gap.now.before gap.now.lo gap.now.hi }
{
    if count == Fe::ZERO {
        return Fe::ZERO;
    }
    let upper = element(65536).mul(gap.hi);
    count.mul(time.sub(gap.before).sub(Fe::ONE).sub(gap.lo).sub(upper))
}

/// A block's word at a time, as the memory bus has it.
pub fn block(space: Fe, pointer: Fe, word: Limbs, time: Fe) -> [Fe; 7]
    ensures { result ≡ space ∷ pointer ∷ word.x0 ∷ word.x1 ∷ word.x2 ∷ word.x3 ∷ time ∷ [] }
{
    [space, pointer, word.x0, word.x1, word.x2, word.x3, time]
}

/// The constraint of an access of the row of this time.
#[tactic(auto, unfolding(crate::specs::Told::touch_constraint))]
pub fn touch_constraint(time: Fe, touch: &Touch) -> Fe
    ensures { result ≡ touch_constraint field time touch.now }
{
    time_constraint(touch.count, time.add(touch.slot), &touch.gap)
}

/// The columns of an access at a time whose block was accessed before at another.
#[tactic(auto, unfolding(crate::specs::Told::gap_filled))]
pub fn gap_between(time: u32, before: u32) -> Gap
    ensures { result ≡ gap_filled time before }
{
    let between = time.saturating_sub(before).saturating_sub(1);
    Gap {
        before: element(before % MODULUS),
        lo: Fe::of_u16((between % 65536) as u16),
        hi: Fe::of_u16((between / 65536) as u16),
    }
}
