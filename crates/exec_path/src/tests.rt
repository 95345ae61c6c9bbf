//! Rows with their order and their path, put down by hand, and the definition of a path computed plainly.

use super::*;
use std::alloc::Global;
use std::test::Fail;

/// A pc and a time.
type Point = (u32, u32);

struct Case {
    start: Point,
    end: Point,
    /// Where each row begins and where it goes.
    rows: &'static [(Point, Point)],
    /// The places by time, and then by place.
    order: &'static [usize],
    /// The order in which the rows lead from the start to the end, if there is one.
    path: Option<&'static [usize]>,
}

const CASES: [Case; 10] = [
    Case {
        start: (100, 1),
        end: (100, 1),
        rows: &[],
        order: &[],
        path: Some(&[]),
    },
    Case {
        start: (100, 1),
        end: (104, 1),
        rows: &[],
        order: &[],
        path: None,
    },
    Case {
        start: (100, 1),
        end: (96, 27),
        rows: &[((100, 1), (96, 27))],
        order: &[0],
        path: Some(&[0]),
    },
    // The end is a slot too late.
    Case {
        start: (100, 1),
        end: (104, 3),
        rows: &[((100, 1), (104, 2))],
        order: &[0],
        path: None,
    },
    // A jump to itself.
    Case {
        start: (100, 1),
        end: (100, 4),
        rows: &[
            ((100, 3), (100, 4)),
            ((100, 1), (100, 2)),
            ((100, 2), (100, 3)),
        ],
        order: &[1, 2, 0],
        path: Some(&[1, 2, 0]),
    },
    // The second row begins a slot after the first one ends.
    Case {
        start: (100, 1),
        end: (108, 4),
        rows: &[((100, 1), (104, 2)), ((104, 3), (108, 4))],
        order: &[0, 1],
        path: None,
    },
    // Two rows swapped.
    Case {
        start: (100, 1),
        end: (108, 5),
        rows: &[((104, 2), (108, 5)), ((100, 1), (104, 2))],
        order: &[1, 0],
        path: Some(&[1, 0]),
    },
    // A row that isn't on the way.
    Case {
        start: (100, 1),
        end: (104, 2),
        rows: &[((100, 1), (104, 2)), ((200, 7), (200, 8))],
        order: &[0, 1],
        path: None,
    },
    // Equal times go by place.
    Case {
        start: (100, 1),
        end: (104, 2),
        rows: &[
            ((8, 5), (0, 0)),
            ((0, 1), (0, 0)),
            ((4, 5), (9, 9)),
            ((0, 3), (0, 0)),
        ],
        order: &[1, 3, 0, 2],
        path: None,
    },
    // Times that wrap at the modulus: this path isn't the order of time.
    Case {
        start: (100, 2013265920),
        end: (108, 1),
        rows: &[((100, 2013265920), (104, 0)), ((104, 0), (108, 1))],
        order: &[1, 0],
        path: Some(&[0, 1]),
    },
];

fn path_rows(alloc: Global, rows: &[(Point, Point)]) -> Result<Vec<PathRow>, OutOfMemory> {
    let mut made = Vec::new(alloc);
    for ((from_pc, from_time), (to_pc, to_time)) in rows {
        made.push(PathRow {
            from_pc: *from_pc,
            from_time: *from_time,
            to_pc: *to_pc,
            to_time: *to_time,
        })?;
    }
    Ok(made)
}

/// Whether the rows at these places lead from the start to the end.
fn leads(rows: &[PathRow], places: &[usize], start: Point, end: Point) -> bool {
    let mut here = start;
    for place in places {
        match rows.get(*place) {
            Some(row) if (row.from_pc, row.from_time) == here => here = (row.to_pc, row.to_time),
            _ => return false,
        }
    }
    here == end
}

/// The first order of all the rows that leads from the start to the end: each list of as many
/// places is tried, written as a number in base `rows.len()`.
fn path_of(
    alloc: Global,
    rows: &[PathRow],
    start: Point,
    end: Point,
) -> Result<Option<Vec<usize>>, OutOfMemory> {
    let tries = (0..rows.len()).fold(1, |n: usize, _| n.wrapping_mul(rows.len()));
    for number in 0..tries {
        let mut places = Vec::new(alloc);
        let mut rest = number;
        for _ in 0..rows.len() {
            places.push(rest % rows.len())?;
            rest /= rows.len();
        }
        let each_once = (0..rows.len()).all(|place| places.contains(&place));
        if each_once && leads(rows, &places, start, end) {
            return Ok(Some(places));
        }
    }
    Ok(None)
}

#[test]
fn order_and_path_of_every_case(rt: HostRuntime) -> Result<(), Fail> {
    for (i, case) in CASES.iter().enumerate() {
        let rows = path_rows(rt.alloc(), case.rows)?;
        let places = order_rows(rt.alloc(), &rows)?;
        assert!(rt; places.as_slice() == case.order, "case {i}");
        let path = path_of(rt.alloc(), &rows, case.start, case.end)?;
        assert!(rt;
            path.as_ref().map(|path| path.as_slice()) == case.path,
            "case {i}"
        );
        let is_path = leads(&rows, &places, case.start, case.end);
        assert_eq!(rt; is_path, case.path == Some(case.order), "case {i}");
    }
    Ok(())
}
