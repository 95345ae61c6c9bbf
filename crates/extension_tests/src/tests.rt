//! Extensions made of others, and a check of rows that were put down by hand.

ghost use Rattle.std.specs.Prelude.{◌≡◌};

use super::*;
use air_core::{Both, Event, Extension, NoChips, OutOfMemory, Reserved, Side, Single, Tuple};
use gadget_time::Nop;
use std::alloc::Global;
use std::test::Fail;
use vm_field::Fe;

/// The width and the slots of each table.
fn tables_of<E: Extension>(alloc: Global, ext: &E) -> Result<Vec<(u32, u32)>, OutOfMemory> {
    let mut tables = Vec::new(alloc);
    for table in 0..ext.tables() {
        tables.push((ext.width(table), ext.slots(table)))?;
    }
    Ok(tables)
}

/// The opcodes and buses that belong to tables.
fn owners_of<E: Extension>(ext: &E) -> [Option<u32>; 2] {
    [ext.owner(39), ext.owner(40)]
}

#[test]
fn three_deep(rt: HostRuntime) -> Result<(), Fail> {
    let ext = Both::new(
        Both::new(
            Both::new(NoChips::new(24), Reserved::new(7, u32::MAX, 24)),
            Single::new(Nop::new()),
        ),
        Reserved::new(0, u32::MAX, 24),
    );
    let tables = tables_of(rt.alloc(), &ext)?;
    assert_eq!(rt;
        tables.as_slice(),
        [(7, u32::MAX), (3, 1), (0, u32::MAX)].as_slice()
    );
    assert_eq!(rt; owners_of(&ext), [Some(1), None]);
    assert_eq!(rt; ext.time_bits(), 24);
    assert!(rt; !ext.is_private(6));
    Ok(())
}

/// A step of x that is answered by y, `count` times, and where the path ends.
struct Case {
    x: u16,
    y: u16,
    count: u16,
    end: u32,
    accepted: bool,
}

const CASES: [Case; 5] = [
    Case {
        x: 4,
        y: 4,
        count: 1,
        end: 4100,
        accepted: true,
    },
    // Nothing is answered.
    Case {
        x: 4,
        y: 4,
        count: 0,
        end: 4100,
        accepted: false,
    },
    // A step of 8, though all but the private bus balances.
    Case {
        x: 8,
        y: 4,
        count: 1,
        end: 4104,
        accepted: false,
    },
    // An answer of 8 balances, but its row does not hold.
    Case {
        x: 8,
        y: 8,
        count: 1,
        end: 4104,
        accepted: false,
    },
    // A path that ends elsewhere.
    Case {
        x: 4,
        y: 4,
        count: 1,
        end: 4104,
        accepted: false,
    },
];

fn event(bus: u8, side: Side, tuple: Tuple) -> Event
    ensures { result.bus ≡ bus }
{
    Event {
        bus,
        side,
        tuple,
        count: 1,
    }
}

#[test]
fn a_private_bus_inside_of_both(rt: HostRuntime) -> Result<(), Fail> {
    let alloc = rt.alloc();
    for case in &CASES {
        let ext = Both::new(Reserved::new(2, 1, 24), Both::new(Pair, NoChips::new(24)));
        let quiet = vec![in alloc; Fe::ZERO, Fe::ZERO]?;
        let step = vec![in alloc; Fe::of_u16(4096), Fe::ONE, Fe::ONE, Fe::of_u16(case.x)]?;
        let answer = vec![in alloc; Fe::of_u16(case.y), Fe::of_u16(case.count)]?;
        let tables = [
            vec![in alloc; quiet]?,
            vec![in alloc; step]?,
            vec![in alloc; answer]?,
        ];
        let others = [
            event(0, Side::Send, Tuple::of(&[4096, 1])),
            event(0, Side::Receive, Tuple::of(&[case.end, 2])),
            event(
                1,
                Side::Receive,
                Tuple::of(&[4096, 39, 0, 0, 0, 0, 0, 0, 0, 0, 0, 0]),
            ),
        ];
        assert_eq!(rt; check_tables(alloc, &ext, &tables, &others)?, case.accepted);
    }
    Ok(())
}
