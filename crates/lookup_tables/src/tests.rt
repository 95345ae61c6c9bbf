//! Rows and places from the definition of the three tables, put down by hand.

use super::*;
use air_core::MAX_TUPLE;
use std::test::Fail;

/// A bus, a row of its table, and the place of the row.
const ROWS: [(u8, &'static [u32], u32); 12] = [
    (XOR, &[0, 0, 0], 0),
    (XOR, &[7, 7, 0], 1799),
    (XOR, &[255, 1, 254], 65_281),
    (XOR, &[255, 255, 0], 65_535),
    (RANGE, &[0, 0], 0),
    (RANGE, &[5, 3], 12),
    (RANGE, &[0, 8], 255),
    (RANGE, &[0, 16], 65_535),
    (RANGE, &[2, 16], 65_537),
    (RANGE, &[65_535, 16], 131_070),
    (SHA_CONSTANTS, &[0, 12_184, 17_034], 0),
    (SHA_CONSTANTS, &[63, 30_962, 50_801], 63),
];

/// Buses and places behind the last, and buses without a table.
const NO_PLACES: [(u8, u32); 6] = [
    (XOR, 65_536),
    (RANGE, 131_071),
    (SHA_CONSTANTS, 64),
    (XOR, u32::MAX),
    (2, 0),
    (6, 0),
];

/// Buses and what is no row there.
const NO_ROWS: [(u8, &'static [u32]); 14] = [
    (RANGE, &[8, 3]),
    (RANGE, &[0, 17]),
    (RANGE, &[1, 0]),
    (RANGE, &[5]),
    (RANGE, &[5, 3, 0]),
    (XOR, &[1, 2, 4]),
    (XOR, &[256, 0, 256]),
    (XOR, &[0, 256, 256]),
    (XOR, &[0, 0]),
    (SHA_CONSTANTS, &[0, 12_185, 17_034]),
    (SHA_CONSTANTS, &[0, 17_034, 12_184]),
    (SHA_CONSTANTS, &[64, 0, 0]),
    (2, &[0, 0, 0]),
    (6, &[]),
];

#[test]
fn rows_and_places(rt: HostRuntime) -> Result<(), Fail> {
    for (bus, row, place) in &ROWS {
        assert!(rt; row.len() <= MAX_TUPLE);
        let tuple = Tuple::of(row);
        assert_eq!(rt; tuple_at(*bus, *place), Some(tuple));
        assert_eq!(rt; count_place(*bus, &tuple), Some(*place));
    }
    for (bus, place) in &NO_PLACES {
        assert_eq!(rt; tuple_at(*bus, *place), None);
    }
    for (bus, row) in &NO_ROWS {
        assert!(rt; row.len() <= MAX_TUPLE);
        assert_eq!(rt; count_place(*bus, &Tuple::of(row)), None);
    }
    Ok(())
}
