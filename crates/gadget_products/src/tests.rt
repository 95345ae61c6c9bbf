//! The square of FFFFFFFF by hand.

use crate::{carries, place};
use std::test::Fail;
use vm_field::Fe;

/// The places of the square are 65025, so many times as there are pairs of limbs, and its limbs are those of
/// FFFFFFFE00000001; with another lowest limb the first carry is no small number.
#[test]
fn square(rt: HostRuntime) -> Result<(), Fail> {
    let word = [Fe::of_u16(255); 4];
    let mut sums = [Fe::ZERO; 8];
    for i in 0..8 {
        sums[i] = place(&word, &word, i);
    }
    let byte = Fe::of_u16(65025);
    for (sum, pairs) in sums.iter().zip(&[1u16, 2, 3, 4, 3, 2, 1, 0]) {
        assert_eq!(rt; *sum, byte.mul(Fe::of_u16(*pairs)));
    }
    let full = Fe::of_u16(255);
    let limbs = [
        Fe::ONE,
        Fe::ZERO,
        Fe::ZERO,
        Fe::ZERO,
        Fe::of_u16(254),
        full,
        full,
        full,
    ];
    let out = carries(&sums, &limbs);
    for (carry, number) in out.iter().zip(&[254u16, 509, 764, 1019, 765, 510, 255, 0]) {
        assert_eq!(rt; *carry, Fe::of_u16(*number));
    }
    let [wrong] = carries(&[byte], &[Fe::ZERO]);
    assert_eq!(rt; wrong.mul(Fe::of_u16(256)), byte);
    Ok(())
}
