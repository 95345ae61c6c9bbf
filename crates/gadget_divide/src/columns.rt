//! The columns of a division.

ghost use Rattle.std.specs.Prelude.{◌≡◌, ◌≤◌, length};
ghost use Rattle.air_core.specs.Ring.{field};
ghost use Rattle.gadget_divide.specs.Divided.{divided_of};

use vm_field::{Fe, Limbs};

/// The signs of the two words, whether the divisor is 0, the words' distances from 0, their quotient and
/// remainder, the same with their signs, and the columns of LT.
#[derive(Clone, Copy, Debug)]
pub struct Divided {
    pub left_sign: Fe,
    pub right_sign: Fe,
    pub by_zero: Fe,
    pub dividend: Limbs,
    pub divisor: Limbs,
    pub quotient: Limbs,
    pub remainder: Limbs,
    pub signed_quotient: Limbs,
    pub signed_remainder: Limbs,
    pub less: [Fe; 8],
}

impl Divided {
    /// The first 35 columns.
    #[tactic(auto, unfolding(crate::specs::Divided::divided_of, vm_field::specs::Limbs::limbs_at))]
    pub fn read(own: &[Fe]) -> Divided
        requires { 35 ≤ length own.now }
        ensures left_sign { result.left_sign ≡ (divided_of field own.now).left_sign }
        ensures right_sign { result.right_sign ≡ (divided_of field own.now).right_sign }
        ensures by_zero { result.by_zero ≡ (divided_of field own.now).by_zero }
        ensures dividend { result.dividend ≡ (divided_of field own.now).dividend }
        ensures divisor { result.divisor ≡ (divided_of field own.now).divisor }
        ensures quotient { result.quotient ≡ (divided_of field own.now).quotient }
        ensures remainder { result.remainder ≡ (divided_of field own.now).remainder }
        ensures signed_quotient { result.signed_quotient ≡ (divided_of field own.now).signed_quotient }
        ensures signed_remainder { result.signed_remainder ≡ (divided_of field own.now).signed_remainder }
        ensures less { result.less ≡ (divided_of field own.now).less }
    {
        Divided {
            left_sign: own[0],
            right_sign: own[1],
            by_zero: own[2],
            dividend: Limbs::read(own, 3),
            divisor: Limbs::read(own, 7),
            quotient: Limbs::read(own, 11),
            remainder: Limbs::read(own, 15),
            signed_quotient: Limbs::read(own, 19),
            signed_remainder: Limbs::read(own, 23),
            less: [
                own[27], own[28], own[29], own[30], own[31], own[32], own[33], own[34],
            ],
        }
    }
}
