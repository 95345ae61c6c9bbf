//! The boundary events of a page, put down by hand, and balance against a replay on lists.

use super::*;
use air_core::{Event, EventList, Side, Tuple};
use std::alloc::Global;
use std::test::Fail;

/// A block of the page of registers: its number, the first byte of its word at the start and at the end,
/// and its final time.
type Block = (usize, u8, u8, u32);

/// An access: its block, the first byte of the old word with the time before, and the first byte of the
/// new word with its own time.
type Access = (u32, u8, u32, u8, u32);

struct Case {
    blocks: &'static [Block],
    /// In the order of time.
    accesses: &'static [Access],
    /// Whether the accesses lead from the page's start to its end.
    replays: bool,
}

const CASES: [Case; 9] = [
    Case {
        blocks: &[(5, 9, 9, 0)],
        accesses: &[],
        replays: true,
    },
    // A block without an access has another word, or a time.
    Case {
        blocks: &[(5, 0, 1, 0)],
        accesses: &[],
        replays: false,
    },
    Case {
        blocks: &[(5, 0, 0, 1)],
        accesses: &[],
        replays: false,
    },
    // A write, and a read of it.
    Case {
        blocks: &[(5, 0, 7, 4)],
        accesses: &[(5, 0, 0, 7, 3), (5, 7, 3, 7, 4)],
        replays: true,
    },
    // A read of what stood there before the write.
    Case {
        blocks: &[(5, 0, 7, 4)],
        accesses: &[(5, 0, 0, 7, 3), (5, 0, 0, 7, 4)],
        replays: false,
    },
    // An old time that isn't the last one.
    Case {
        blocks: &[(5, 0, 7, 4)],
        accesses: &[(5, 0, 0, 7, 3), (5, 7, 2, 7, 4)],
        replays: false,
    },
    // A last word that the page doesn't have.
    Case {
        blocks: &[(5, 0, 7, 4)],
        accesses: &[(5, 0, 0, 7, 3), (5, 7, 3, 8, 4)],
        replays: false,
    },
    // Two blocks.
    Case {
        blocks: &[(0, 0, 0, 7), (15, 9, 2, 8)],
        accesses: &[
            (0, 0, 0, 0, 1),
            (15, 9, 0, 1, 3),
            (0, 0, 1, 0, 7),
            (15, 1, 3, 2, 8),
        ],
        replays: true,
    },
    // A block of no page.
    Case {
        blocks: &[],
        accesses: &[(16, 0, 0, 0, 1)],
        replays: false,
    },
];

fn page_of(blocks: &[Block]) -> Touched {
    let mut page = Touched {
        label: 8_388_608,
        old: [0; 64],
        new: [0; 64],
        times: [0; 16],
    };
    for (block, old, new, time) in blocks {
        if *block < 16 {
            page.old[4 * *block] = *old;
            page.new[4 * *block] = *new;
            page.times[*block] = *time;
        }
    }
    page
}

/// Whether the accesses, one after the other, lead from the page's start to its end.
fn replays(page: &Touched, accesses: &[Access]) -> bool {
    let mut memory = [(0, 0); 16];
    for block in 0..16 {
        memory[block] = (page.old[4 * block], 0);
    }
    for (block, old, before, new, time) in accesses {
        let block = *block as usize;
        if block >= 16 || memory[block] != (*old, *before) {
            return false;
        }
        memory[block] = (*new, *time);
    }
    (0..16).all(|block| memory.get(block) == Some(&(page.new[4 * block], page.times[block])))
}

fn event(side: Side, block: u32, first: u8, time: u32) -> Event {
    let pointer = block.wrapping_mul(4);
    Event {
        bus: 2,
        side,
        tuple: Tuple::of(&[1, pointer, first as u32, 0, 0, 0, time]),
        count: 1,
    }
}

/// Whether each tuple is sent as often as it is received.
fn balances(events: &[Event]) -> bool {
    events.iter().all(|event| {
        let sent = events
            .iter()
            .filter(|e| e.tuple == event.tuple && e.side == Side::Send);
        let received = events
            .iter()
            .filter(|e| e.tuple == event.tuple && e.side == Side::Receive);
        sent.count() == received.count()
    })
}

/// The events of the page, and those of the accesses.
fn events_of(
    alloc: Global,
    page: &Touched,
    accesses: &[Access],
) -> Result<Vec<Event>, OutOfMemory> {
    let mut of_page = EventList::new(alloc);
    boundary_events(page, &mut of_page)?;
    let mut events = of_page.as_slice().to_vec(alloc)?;
    for (block, old, before, new, time) in accesses {
        events.push(event(Side::Receive, *block, *old, *before))?;
        events.push(event(Side::Send, *block, *new, *time))?;
    }
    Ok(events)
}

#[test]
fn balance_is_replay(rt: HostRuntime) -> Result<(), Fail> {
    for (i, case) in CASES.iter().enumerate() {
        let page = page_of(case.blocks);
        let events = events_of(rt.alloc(), &page, case.accesses)?;
        assert_eq!(rt; replays(&page, case.accesses), case.replays, "case {i}");
        assert_eq!(rt; balances(&events), case.replays, "case {i}");
    }
    Ok(())
}

/// A label, its space, and the pointers of the page's first and last block.
type Place = (u32, u32, u32, u32);

const PLACES: [Place; 4] = [
    (8_388_609, 1, 64, 124),
    (16_777_219, 2, 192, 252),
    (25_165_823, 2, 536_870_848, 536_870_908),
    // the page of public bytes
    (25_165_824, 3, 0, 60),
];

/// A page whose old bytes count up from 0, and its new ones from 100.
fn counted_page(label: u32) -> Touched {
    let mut page = page_of(&[]);
    page.label = label;
    for k in 0..64 {
        page.old[k] = k as u8;
        page.new[k] = 100 + k as u8;
    }
    page.times[0] = 11;
    page.times[15] = 536_870_911;
    page
}

#[test]
fn events_of_a_page(rt: HostRuntime) -> Result<(), Fail> {
    for (label, space, first, last) in PLACES {
        let mut events = EventList::new(rt.alloc());
        boundary_events(&counted_page(label), &mut events)?;
        let events = events.as_slice();
        assert_eq!(rt; events.len(), 32);
        let lines: [(usize, Side, [u32; 7]); 4] = [
            (0, Side::Send, [space, first, 0, 1, 2, 3, 0]),
            (1, Side::Receive, [space, first, 100, 101, 102, 103, 11]),
            (30, Side::Send, [space, last, 60, 61, 62, 63, 0]),
            (
                31,
                Side::Receive,
                [space, last, 160, 161, 162, 163, 536_870_911],
            ),
        ];
        for (place, side, tuple) in lines {
            let event = events.get(place).ok_or("an event is missing")?;
            assert_eq!(rt; event.side, side);
            assert!(rt; event.tuple.as_slice() == tuple.as_slice());
            assert!(rt; event.bus == 2 && event.count == 1);
        }
    }
    Ok(())
}
