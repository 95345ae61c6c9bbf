//! Sums and the order of numbers of four and of eight limbs, and signs.

use crate::{fill_less, first_broken, less_broken, less_ranges, sign_constraints, sign_looked_up};
use air_core::element;
use std::test::Fail;
use vm_field::Fe;

fn elements<const N: usize>(numbers: &[u16; N]) -> [Fe; N] {
    let mut limbs = [Fe::ZERO; N];
    for i in 0..N {
        limbs[i] = Fe::of_u16(numbers[i]);
    }
    limbs
}

/// 255 + 1 with its carry and without, FFFFFFFF + 1, and the same over eight limbs, under the gates 1 and 0.
#[test]
fn sums(rt: HostRuntime) -> Result<(), Fail> {
    let x = elements(&[255, 0, 0, 0]);
    let one = elements(&[1, 0, 0, 0]);
    let most = elements(&[255, 255, 255, 255]);
    let zero = [Fe::ZERO; 4];
    assert_eq!(rt;
        first_broken(10, Fe::ONE, &x, &one, &elements(&[0, 1, 0, 0])),
        None
    );
    assert_eq!(rt; first_broken(10, Fe::ONE, &x, &one, &zero), Some(11));
    assert_eq!(rt; first_broken(10, Fe::ZERO, &x, &one, &zero), None);
    assert_eq!(rt; first_broken(10, Fe::ONE, &most, &one, &zero), None);
    assert_eq!(rt;
        first_broken(10, Fe::ONE, &x, &one, &elements(&[1, 1, 0, 0])),
        Some(10)
    );
    let long = elements(&[255, 255, 255, 255, 0, 0, 0, 0]);
    let small = elements(&[1, 0, 0, 0, 0, 0, 0, 0]);
    let sum = elements(&[0, 0, 0, 0, 1, 0, 0, 0]);
    assert_eq!(rt; first_broken(0, Fe::ONE, &long, &small, &sum), None);
    assert_eq!(rt;
        first_broken(0, Fe::ONE, &long, &small, &[Fe::ZERO; 8]),
        Some(4)
    );
    Ok(())
}

/// The sign of 80 is 1 and that of 7F is 0: byte, 128 and their xor. A sign without a gate is refused, and 2 is none.
#[test]
fn signs(rt: HostRuntime) -> Result<(), Fail> {
    let two = Fe::of_u16(2);
    assert_eq!(rt;
        sign_looked_up(Fe::ONE, Fe::of_u16(128)),
        elements(&[128, 128, 0])
    );
    assert_eq!(rt;
        sign_looked_up(Fe::ZERO, Fe::of_u16(127)),
        elements(&[127, 128, 255])
    );
    assert_eq!(rt; sign_constraints(Fe::ONE, Fe::ONE), [Fe::ZERO; 2]);
    assert_eq!(rt; sign_constraints(Fe::ONE, Fe::ZERO), [Fe::ZERO, Fe::ONE]);
    assert_eq!(rt; sign_constraints(two, Fe::ONE), [two, Fe::ZERO]);
    Ok(())
}

/// FFFFFFFF is above 0, and below it where numbers are signed; 1 is below 2^32, by the fifth limb of eight. With the other
/// answer the constraint of the marked limb is broken, and where no limb is marked that of the answer.
#[test]
fn orders(rt: HostRuntime) -> Result<(), Fail> {
    let most = elements(&[255, 255, 255, 255]);
    let zero = [Fe::ZERO; 4];
    let mut columns = [Fe::ZERO; 8];
    fill_less(false, &most, &zero, &mut columns);
    assert_eq!(rt; columns, elements(&[255, 0, 0, 0, 0, 1, 254, 0]));
    assert_eq!(rt; less_broken(7, &most, &zero, &columns), None);
    fill_less(true, &most, &zero, &mut columns);
    let mut signed = elements(&[0, 0, 0, 0, 0, 1, 0, 1]);
    signed[0] = element(2_013_265_920);
    assert_eq!(rt; columns, signed);
    assert_eq!(rt;
        less_ranges::<4>(Fe::ONE, &columns),
        elements(&[127, 128, 0])
    );
    assert_eq!(rt; less_broken(7, &most, &zero, &columns), None);
    let low = elements(&[1, 0, 0, 0, 0, 0, 0, 0]);
    let high = elements(&[0, 0, 0, 0, 1, 0, 0, 0]);
    let mut columns = [Fe::ZERO; 12];
    fill_less(false, &low, &high, &mut columns);
    assert_eq!(rt; columns, elements(&[0, 0, 0, 0, 0, 0, 1, 0, 0, 0, 0, 1]));
    assert_eq!(rt; less_broken(0, &low, &high, &columns), None);
    columns[11] = Fe::ZERO;
    assert_eq!(rt; less_broken(0, &low, &high, &columns), Some(25));
    fill_less(false, &low, &low, &mut columns);
    assert_eq!(rt; columns, [Fe::ZERO; 12]);
    columns[11] = Fe::ONE;
    assert_eq!(rt; less_broken(0, &low, &low, &columns), Some(12));
    Ok(())
}
