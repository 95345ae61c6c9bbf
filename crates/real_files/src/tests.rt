//! The segments of a file through the calls that a check of it makes.

mod three_segments;

ghost use Rattle.std.specs.Prelude.{◌<◌, ◌^◌, length};

use air_core::{Both, Event, EventList, Extension, Side, Single, Tuple, bus, hand_counted};
use bus_core::Balance;
use chip_alu::Alu;
use elf_image::read_image;
use gadget_time::Nop;
use hex::FromHex;
use lookup_tables::tuple_at;
use offline_memory::boundary_events;
use page_tree::{Tree, path_root, roots_of};
use std::alloc::Global;
use std::test::Fail;
use three_segments::{ELF, PATH, SEGMENTS};
use vm_field::Fe;
use vm_trace::{Digest, REGISTER_LABEL, Touched};
use vm_transpile::{Program, transpile};

/// The page of registers, its bytes as hexadecimal digits.
struct Page {
    old: &'static str,
    new: &'static str,
    times: [u32; 16],
}

/// Entries of a count list, each a place and a count.
type Counts = &'static [(u32, u32)];

struct Segment {
    start: u32,
    end: u32,
    end_time: u32,
    roots: [&'static str; 2],
    /// The rows of the ALU and of the no-operation.
    tables: [&'static [&'static [u32]]; 2],
    program: Counts,
    xor: Counts,
    range: Counts,
    registers: Option<Page>,
    siblings: &'static [&'static str],
}

fn digest(digits: &str) -> Result<Digest, Fail> {
    Ok(<[u8; 32] as FromHex>::from_hex(digits)?)
}

fn page_of(page: &Page) -> Result<Touched, Fail> {
    Ok(Touched {
        label: REGISTER_LABEL,
        old: <[u8; 64] as FromHex>::from_hex(page.old)?,
        new: <[u8; 64] as FromHex>::from_hex(page.new)?,
        times: page.times,
    })
}

fn event(bus: u8, side: Side, tuple: Tuple, count: u32) -> Event {
    Event {
        bus,
        side,
        tuple,
        count,
    }
}

fn push_list(events: &mut Vec<Event>, list: &EventList) -> Result<(), Fail> {
    for event in list.as_slice() {
        events.push(*event)?;
    }
    Ok(())
}

/// Adds what a row says, and tells whether it holds.
fn push_row<E: Extension>(
    alloc: Global,
    ext: &E,
    table: u32,
    numbers: &[u32],
    events: &mut Vec<Event>,
) -> Result<bool, Fail> {
    let mut row = Vec::new(alloc);
    for number in numbers {
        row.push(Fe::new(*number).ok_or("a number of the prime or more")?)?;
    }
    if table >= ext.tables() || row.len() != ext.width(table) as usize {
        return Err("a row of another width")?;
    }
    let mut list = EventList::new(alloc);
    ext.events(table, &row, &mut list)?;
    push_list(events, &list)?;
    Ok(ext.first_broken(table, &row).is_none())
}

/// The same of the rows of a table.
fn push_rows<E: Extension>(
    alloc: Global,
    ext: &E,
    table: u32,
    rows: &[&[u32]],
    events: &mut Vec<Event>,
) -> Result<bool, Fail> {
    let mut hold = true;
    for row in rows {
        if !push_row(alloc, ext, table, row, events)? {
            hold = false;
        }
    }
    Ok(hold)
}

/// Adds the rows of a lookup table, each received with its count.
fn push_lookups(bus: u8, counts: &[(u32, u32)], events: &mut Vec<Event>) -> Result<(), Fail> {
    for (place, count) in counts {
        let tuple = tuple_at(bus, *place).ok_or("a place behind the table")?;
        events.push(event(bus, Side::Receive, tuple, *count))?;
    }
    Ok(())
}

/// Adds the rows of the program, each received with its count.
fn push_program(
    program: &Program,
    counts: &[(u32, u32)],
    events: &mut Vec<Event>,
) -> Result<(), Fail> {
    for (place, count) in counts {
        let row = program.at(*place).ok_or("a place behind the program")?;
        let tuple = Tuple::of(&row.numbers());
        events.push(event(bus::PROGRAM, Side::Receive, tuple, *count))?;
    }
    Ok(())
}

/// Whether all rows hold, and what the segment says balances. Another list of range rows may be given.
fn balances(
    alloc: Global,
    program: &Program,
    segment: &Segment,
    range: &[(u32, u32)],
) -> Result<bool, Fail> {
    let ext = Both::new(Single::new(Alu::new()), Single::new(Nop::new()));
    let mut events = Vec::new(alloc);
    let start = Tuple::of(&[segment.start, 1]);
    let end = Tuple::of(&[segment.end, segment.end_time]);
    events.push(event(bus::EXECUTION, Side::Send, start, 1))?;
    events.push(event(bus::EXECUTION, Side::Receive, end, 1))?;
    let mut hold = true;
    for table in 0..2 {
        if !push_rows(
            alloc,
            &ext,
            table,
            segment.tables[table as usize],
            &mut events,
        )? {
            hold = false;
        }
    }
    push_program(program, segment.program, &mut events)?;
    push_lookups(bus::XOR, segment.xor, &mut events)?;
    push_lookups(bus::RANGE, range, &mut events)?;
    if let Some(registers) = &segment.registers {
        let mut list = EventList::new(alloc);
        boundary_events(&page_of(registers)?, &mut list)?;
        push_list(&mut events, &list)?;
    }
    let mut balance = Balance::new(alloc);
    hand_counted(&events, &mut balance)?;
    Ok(hold && balance.least_unbalanced().is_none())
}

/// The roots to which the siblings lead, over the page's bytes before and after.
#[tactic(auto, unfolding(page_tree::specs::Parts::labels_of))]
fn opened(page: Option<Touched>, siblings: &[Digest]) -> Option<(Digest, Digest)>
    requires { length siblings.now < 2 ^ 32 }
{
    match page {
        Some(page) if page.label < 1 << 25 => roots_of(&[page], siblings).ok(),
        Some(_) => None,
        None => roots_of(&[], siblings).ok(),
    }
}

/// Whether the segment's siblings lead to its two roots.
fn opens(alloc: Global, segment: &Segment) -> Result<bool, Fail> {
    let mut siblings = Vec::new(alloc);
    for digits in segment.siblings {
        siblings.push(digest(digits)?)?;
    }
    let roots = (digest(segment.roots[0])?, digest(segment.roots[1])?);
    let page = match &segment.registers {
        Some(registers) => Some(page_of(registers)?),
        None => None,
    };
    if siblings.len() > 25 {
        return Err("too many siblings")?;
    }
    Ok(opened(page, &siblings) == Some(roots))
}

#[test]
fn a_file_of_three_segments(rt: HostRuntime) -> Result<(), Fail> {
    let alloc = rt.alloc();
    let bytes = hex::decode(alloc, ELF.as_bytes())?;
    let image = read_image(alloc, &bytes)?;
    let program = transpile(alloc, &image)?;
    let mut root = Tree::of_image(alloc, &image)?.root();
    let mut pc = 4096;
    for (i, segment) in SEGMENTS.iter().enumerate() {
        assert!(rt; digest(segment.roots[0])? == root, "start root {i}");
        assert!(rt; segment.start == pc, "start {i}");
        assert!(rt;
            balances(alloc, &program, segment, segment.range)?,
            "balance {i}"
        );
        assert!(rt; opens(alloc, segment)?, "opening {i}");
        root = digest(segment.roots[1])?;
        pc = segment.end;
    }
    let mut path = [[0; 32]; 25];
    for (level, digits) in PATH.iter().enumerate() {
        path[level] = digest(digits)?;
    }
    assert!(rt; path_root(&[0; 64], &path) == root, "public bytes");
    Ok(())
}

#[test]
fn one_count_more(rt: HostRuntime) -> Result<(), Fail> {
    let alloc = rt.alloc();
    let bytes = hex::decode(alloc, ELF.as_bytes())?;
    let program = transpile(alloc, &read_image(alloc, &bytes)?)?;
    let segment = &SEGMENTS[0];
    let mut range = segment.range.to_vec(alloc)?;
    let (place, count) = range.pop().ok_or("no entry")?;
    range.push((place, count.wrapping_add(1)))?;
    assert!(rt; !balances(alloc, &program, segment, &range)?);
    Ok(())
}
