//! The numbers of the table were computed with Python's whole numbers.

use super::*;
use std::test::Fail;

/// What the operations give for two numbers; the negative and the inverse are the left one's.
struct Row {
    left: u32,
    right: u32,
    sum: u32,
    difference: u32,
    product: u32,
    negative: u32,
    inverse: Option<u32>,
}

const TABLE: [Row; 9] = [
    Row {
        left: 0,
        right: 0,
        sum: 0,
        difference: 0,
        product: 0,
        negative: 0,
        inverse: None,
    },
    Row {
        left: 1,
        right: 2,
        sum: 3,
        difference: 2_013_265_920,
        product: 2,
        negative: 2_013_265_920,
        inverse: Some(1),
    },
    Row {
        left: 2_013_265_920,
        right: 1,
        sum: 0,
        difference: 2_013_265_919,
        product: 2_013_265_920,
        negative: 1,
        inverse: Some(2_013_265_920),
    },
    Row {
        left: 2_013_265_920,
        right: 2_013_265_920,
        sum: 2_013_265_919,
        difference: 0,
        product: 1,
        negative: 1,
        inverse: Some(2_013_265_920),
    },
    Row {
        left: 256,
        right: 2_013_265_665,
        sum: 0,
        difference: 512,
        product: 2_013_200_385,
        negative: 2_013_265_665,
        inverse: Some(2_005_401_601),
    },
    Row {
        left: 2,
        right: 65_535,
        sum: 65_537,
        difference: 2_013_200_388,
        product: 131_070,
        negative: 2_013_265_919,
        inverse: Some(1_006_632_961),
    },
    Row {
        left: 65_536,
        right: 65_536,
        sum: 131_072,
        difference: 0,
        product: 268_435_454,
        negative: 2_013_200_385,
        inverse: Some(2_013_235_201),
    },
    Row {
        left: 2_005_401_601,
        right: 256,
        sum: 2_005_401_857,
        difference: 2_005_401_345,
        product: 1,
        negative: 7_864_320,
        inverse: Some(256),
    },
    Row {
        left: 1_234_567_890,
        right: 1_987_654_321,
        sum: 1_208_956_290,
        difference: 1_260_179_490,
        product: 367_040_976,
        negative: 778_698_031,
        inverse: Some(1_637_216_843),
    },
];

#[test]
fn numbers_from_outside(rt: HostRuntime) -> Result<(), Fail> {
    for row in &TABLE {
        let (a, b) = (row.left, row.right);
        let left = Fe::new(a).ok_or("no element")?;
        let right = Fe::new(b).ok_or("no element")?;
        assert_eq!(rt; left.add(right).value(), row.sum, "{a} + {b}");
        assert_eq!(rt; left.sub(right).value(), row.difference, "{a} - {b}");
        assert_eq!(rt; left.mul(right).value(), row.product, "{a} * {b}");
        assert_eq!(rt; left.neg().value(), row.negative, "-{a}");
        assert_eq!(rt; left.inverse().map(Fe::value), row.inverse, "1 / {a}");
        assert_eq!(rt; left < right, a < b, "{a} < {b}");
    }
    Ok(())
}

#[test]
fn the_ends(rt: HostRuntime) -> Result<(), Fail> {
    assert_eq!(rt; MODULUS, 2_013_265_921);
    assert_eq!(rt; Fe::new(2_013_265_921), None);
    assert_eq!(rt; Fe::new(u32::MAX), None);
    assert_eq!(rt; Fe::of_u16(65_535), Fe::new(65_535).ok_or("no element")?);
    assert_eq!(rt; Fe::default(), Fe::ZERO);
    let last = Fe::ONE.neg();
    assert_eq!(rt; format!(in rt.alloc(); "{last}")?.as_str(), "2013265920");
    Ok(())
}
