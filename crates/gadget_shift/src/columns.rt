//! The columns of a shift.

ghost use Rattle.std.specs.Prelude.{◌≡◌, ◌≤◌, length};
ghost use Rattle.air_core.specs.Ring.{field};
ghost use Rattle.gadget_shift.specs.Shift.{shift_columns, bits_by, limbs_by_flags, power_by};

use vm_field::{Fe, Limbs};

/// One of eight flags for the bits of the amount and one of four for its limbs; then the bits that cross the limbs.
#[derive(Clone, Copy, Debug)]
pub struct Columns {
    pub bits: [Fe; 8],
    pub limbs: Limbs,
    pub carries: Limbs,
}

impl Columns {
    /// The first sixteen columns.
    #[tactic(auto, unfolding(crate::specs::Shift::shift_columns, vm_field::specs::Limbs::limbs_at))]
    pub fn read(own: &[Fe]) -> Columns
        requires { 16 ≤ length own.now }
        ensures bits { result.bits ≡ (shift_columns field own.now).bits }
        ensures limbs { result.limbs ≡ (shift_columns field own.now).limbs }
        ensures carries { result.carries ≡ (shift_columns field own.now).carries }
    {
        Columns {
            bits: [
                own[0], own[1], own[2], own[3], own[4], own[5], own[6], own[7],
            ],
            limbs: Limbs::read(own, 8),
            carries: Limbs::read(own, 12),
        }
    }
}

/// How many bits the amount has beside whole limbs.
pub fn bits_by(bits: &[Fe; 8]) -> Fe
    ensures { result ≡ bits_by field bits.now }
{
    air_core::opcode(bits, &[0, 1, 2, 3, 4, 5, 6, 7])
}

/// How many whole limbs the amount has.
pub fn limbs_by(limbs: Limbs) -> Fe
    ensures { result ≡ limbs_by_flags field limbs }
{
    air_core::opcode(&limbs.array(), &[0, 1, 2, 3])
}

/// 2 to the number of bits.
pub fn power_by(bits: &[Fe; 8]) -> Fe
    ensures { result ≡ power_by field bits.now }
{
    air_core::opcode(bits, &[1, 2, 4, 8, 16, 32, 64, 128])
}
