//! An address by hand.

use crate::{part, pointer, pointer_constraints};
use air_core::element;
use std::test::Fail;
use vm_field::{Fe, Limbs};

fn word(x0: u16, x1: u16, x2: u16, x3: u16) -> Limbs {
    Limbs {
        x0: Fe::of_u16(x0),
        x1: Fe::of_u16(x1),
        x2: Fe::of_u16(x2),
        x3: Fe::of_u16(x3),
    }
}

/// 1000FFFC + A is 10010006, with a carry between the halves. Less 2 it is 4 times 04004001, and the low half's part is 1.
#[test]
fn address(rt: HostRuntime) -> Result<(), Fail> {
    let base = word(252, 255, 0, 16);
    let offset = word(10, 0, 0, 0);
    let low = Fe::of_u16(6);
    let high = Fe::of_u16(0x1001);
    let two = Fe::of_u16(2);
    assert_eq!(rt;
        pointer_constraints(&base, &offset, low, high),
        [Fe::ZERO; 2]
    );
    assert_eq!(rt; part(element(1_509_949_441), low, two), Fe::ONE);
    assert_eq!(rt; pointer(low, high, two), element(0x1001_0004));
    let [first, _] = pointer_constraints(&base, &offset, Fe::of_u16(5), high);
    assert!(rt; first != Fe::ZERO);
    let [first, second] = pointer_constraints(&base, &offset, low, Fe::of_u16(0x1002));
    assert_eq!(rt; first, Fe::ZERO);
    assert!(rt; second != Fe::ZERO);
    Ok(())
}
