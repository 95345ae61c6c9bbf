//! Lists of events with what is unbalanced in them, put down by hand, and the same computed plainly.

use super::*;
use air_core::MAX_TUPLE;
use std::test::Fail;

/// A bus, a side, a tuple and a count.
type Line = (u8, Side, &'static [u32], u32);

/// The least bus and tuple of unequal sums, what is sent there, and what is received.
type Least = (u8, &'static [u32], u128, u128);

struct Case {
    lines: &'static [Line],
    least: Option<Least>,
}

const SEND: Side = Side::Send;

const RECEIVE: Side = Side::Receive;

const CASES: [Case; 13] = [
    Case {
        lines: &[],
        least: None,
    },
    // A count that is received in one piece.
    Case {
        lines: &[
            (0, SEND, &[1, 2], 1),
            (0, SEND, &[1, 2], 1),
            (0, RECEIVE, &[1, 2], 2),
        ],
        least: None,
    },
    Case {
        lines: &[
            (0, SEND, &[1, 2], 1),
            (0, SEND, &[1, 2], 1),
            (0, RECEIVE, &[1, 2], 2),
            (3, SEND, &[1], 5),
        ],
        least: Some((3, &[1], 5, 0)),
    },
    // A count that is received in two pieces, one short.
    Case {
        lines: &[
            (2, RECEIVE, &[7], 1),
            (2, SEND, &[7], 3),
            (2, RECEIVE, &[7], 1),
        ],
        least: Some((2, &[7], 3, 2)),
    },
    Case {
        lines: &[(4, RECEIVE, &[], 9)],
        least: Some((4, &[], 0, 9)),
    },
    // A tuple that was even, and then sent once more.
    Case {
        lines: &[
            (0, SEND, &[1], 5),
            (0, RECEIVE, &[1], 5),
            (0, SEND, &[1], 2),
        ],
        least: Some((0, &[1], 7, 5)),
    },
    // The first number goes before the length.
    Case {
        lines: &[(3, SEND, &[2], 1), (3, SEND, &[1, 9], 1)],
        least: Some((3, &[1, 9], 1, 0)),
    },
    // One tuple on two buses.
    Case {
        lines: &[(6, RECEIVE, &[8, 8], 1), (1, SEND, &[8, 8], 1)],
        least: Some((1, &[8, 8], 1, 0)),
    },
    // Tuples that differ in their length alone.
    Case {
        lines: &[(0, RECEIVE, &[1, 0], 1), (0, SEND, &[1], 1)],
        least: Some((0, &[1], 1, 0)),
    },
    // The bus goes first, then the first number that differs.
    Case {
        lines: &[
            (5, SEND, &[0], 1),
            (2, SEND, &[1], 1),
            (2, SEND, &[0, 9], 1),
            (2, SEND, &[2], 1),
        ],
        least: Some((2, &[0, 9], 1, 0)),
    },
    // A sum that is the modulus isn't 0.
    Case {
        lines: &[(1, SEND, &[3], 2013265920), (1, SEND, &[3], 1)],
        least: Some((1, &[3], 2013265921, 0)),
    },
    // Sums above 2^32.
    Case {
        lines: &[
            (1, SEND, &[3], 4294967295),
            (1, SEND, &[3], 4294967295),
            (1, RECEIVE, &[3], 4294967294),
        ],
        least: Some((1, &[3], 8589934590, 4294967294)),
    },
    // An event of count 0 says nothing.
    Case {
        lines: &[(0, SEND, &[0], 0), (0, RECEIVE, &[1], 0)],
        least: None,
    },
];

fn events_of(alloc: Global, lines: &[Line]) -> Result<Vec<Event>, OutOfMemory> {
    let mut events = Vec::new(alloc);
    for (bus, side, tuple, count) in lines {
        let len = tuple.len().min(MAX_TUPLE);
        events.push(Event {
            bus: *bus,
            side: *side,
            tuple: Tuple::of(&tuple[..len]),
            count: *count,
        })?;
    }
    Ok(events)
}

fn balance_of(alloc: Global, events: &[Event]) -> Result<Balance, OutOfMemory> {
    let mut balance = Balance::new(alloc);
    for event in events {
        balance.add(event)?;
    }
    Ok(balance)
}

/// The definition, place by place: sorted by place, the events of one place stand together.
fn least_of(alloc: Global, events: &[Event]) -> Result<Option<Unbalanced>, OutOfMemory> {
    let mut sorted = events.to_vec(alloc)?;
    sorted.sort_by(|a, b| a.bus.cmp(&b.bus).then(a.tuple.cmp(&b.tuple)))?;
    let mut here: Option<Unbalanced> = None;
    for event in &sorted {
        let mut sums = match here {
            Some(sums) if sums.bus == event.bus && sums.tuple == event.tuple => sums,
            Some(sums) if sums.sent != sums.received => return Ok(Some(sums)),
            _ => Unbalanced {
                bus: event.bus,
                tuple: event.tuple,
                sent: 0,
                received: 0,
            },
        };
        match event.side {
            Side::Send => sums.sent = sums.sent.wrapping_add(event.count as u128),
            Side::Receive => sums.received = sums.received.wrapping_add(event.count as u128),
        }
        here = Some(sums);
    }
    Ok(here.filter(|sums| sums.sent != sums.received))
}

/// How many places `many_events` has.
const MANY: u32 = 2000;

/// The sends of many places, and then their receives in another order. One count that is received is one short.
fn many_events(alloc: Global) -> Result<Vec<Event>, OutOfMemory> {
    let mut events = Vec::new(alloc);
    for n in 0..MANY {
        events.push(event_at(SEND, n, n + 1))?;
    }
    for n in 0..MANY {
        let last = MANY - 1 - n;
        let count = if last == 1234 { last } else { last + 1 };
        events.push(event_at(RECEIVE, last, count))?;
    }
    Ok(events)
}

/// An event of the place with this number. 2003 is prime, so no two numbers below it have one place.
fn event_at(side: Side, n: u32, count: u32) -> Event {
    Event {
        bus: (n % 4) as u8,
        side,
        tuple: Tuple::of(&[n.wrapping_mul(7919) % 2003, n % 5]),
        count,
    }
}

#[test]
fn least_of_many_events(rt: HostRuntime) -> Result<(), Fail> {
    let events = many_events(rt.alloc())?;
    let found = balance_of(rt.alloc(), &events)?.least_unbalanced();
    assert_eq!(rt; found, least_of(rt.alloc(), &events)?);
    let short = Unbalanced {
        bus: 2,
        tuple: Tuple::of(&[1412, 4]),
        sent: 1235,
        received: 1234,
    };
    assert_eq!(rt; found, Some(short));
    Ok(())
}

#[test]
fn least_of_every_case(rt: HostRuntime) -> Result<(), Fail> {
    for (i, case) in CASES.iter().enumerate() {
        let events = events_of(rt.alloc(), case.lines)?;
        let found = balance_of(rt.alloc(), &events)?.least_unbalanced();
        assert_eq!(rt; found, least_of(rt.alloc(), &events)?, "case {i}");
        match (found, case.least) {
            (None, None) => {}
            (Some(found), Some((bus, tuple, sent, received))) => {
                assert_eq!(rt;
                    (found.bus, found.sent, found.received),
                    (bus, sent, received)
                );
                assert!(rt; found.tuple.as_slice() == tuple, "case {i}");
            }
            _ => assert!(rt; false, "case {i}"),
        }
    }
    Ok(())
}
