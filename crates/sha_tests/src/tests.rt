//! A block of one message, filled, and what changes of its rows break.

ghost use Rattle.std.specs.Prelude.{◌≡◌, ◌≤◌, ◌<◌, ◌^◌, IfOk, length};
ghost use Rattle.air_core.specs.System.{sheet_at};
ghost use Rattle.chip_sha_main.specs.Sha.{sha};

use air_core::{Event, EventList, Extension, OutOfMemory, Tuple, bus, element, hand_counted};
use bus_core::Balance;
use chip_sha_main::{ShaExtension, ShaMainForm};
use chip_sha_round::fill_round;
use gadget_time::TableForm;
use lookup_tables::count_place;
use std::alloc::Global;
use std::test::Fail;
use vm_field::Fe;
use vm_isa::{Access, AccessList, StepRecord, TimedAccess, VmInstr, opcode, space};

/// The initial hash value (FIPS 180-4, section 5.3.3).
const INITIAL: [u32; 8] = [
    0x6a09_e667,
    0xbb67_ae85,
    0x3c6e_f372,
    0xa54f_f53a,
    0x510e_527f,
    0x9b05_688c,
    0x1f83_d9ab,
    0x5be0_cd19,
];

/// The digest of "abc" by its words (the standard's example).
const DIGEST: [u32; 8] = [
    0xba78_16bf,
    0x8f01_cfea,
    0x4141_40de,
    0x5dae_2223,
    0xb003_61a3,
    0x9617_7a9c,
    0xb410_ff61,
    0xf200_15ad,
];

/// Word `j` of the padded block of three letters, by its bytes: the letters and 80, zeros, and the length of 24 bits.
fn block_word(letters: [u8; 3], j: usize) -> [u8; 4] {
    match j {
        0 => [letters[0], letters[1], letters[2], 0x80],
        15 => [0, 0, 0, 0x18],
        _ => [0, 0, 0, 0],
    }
}

fn read(space: u8, pointer: u32, word: [u8; 4], time: u32) -> TimedAccess {
    TimedAccess {
        access: Access {
            space,
            pointer,
            old: word,
            new: word,
        },
        time,
        before: 0,
    }
}

/// The step that compresses the block of three letters at `block` into the state at `base`.
fn step(
    alloc: Global,
    time: u32,
    base: u32,
    block: u32,
    letters: [u8; 3],
) -> Result<StepRecord, OutOfMemory>
    requires { time < 1000 }
    ensures { IfOk result (λ done. (length done.accesses ≡ 26) × (done.time ≡ time) × (done.instr.op ≡ 40) × (done.instr.pc ≡ 4096)) }
{
    let mut accesses = AccessList::new(alloc);
    accesses.push(read(space::REGISTERS, 20, base.to_le_bytes(), time))?;
    accesses.push(read(space::REGISTERS, 24, block.to_le_bytes(), time + 1))?;
    for j in 0..16 {
        accesses.push(read(
            space::MEMORY,
            block,
            block_word(letters, j),
            time + 2 + j as u32,
        ))?;
    }
    for j in 0..8 {
        accesses.push(read(
            space::MEMORY,
            base,
            INITIAL[j].to_le_bytes(),
            time + 18 + j as u32,
        ))?;
    }
    Ok(StepRecord {
        instr: VmInstr {
            pc: 4096,
            op: opcode::SHA,
            rd: 5,
            rs1: 6,
            rs2: 0,
            write: false,
            use_imm: false,
            imm: [0, 0, 0, 0],
            target: 0,
        },
        time,
        accesses,
        next: 4100,
    })
}

/// The rows of a step: its own, and those of its rounds.
#[derive(Clone, Copy)]
struct Rows {
    block: [Fe; 267],
    rounds: [[Fe; 299]; 64],
}

fn fill(done: &StepRecord, rows: &mut Rows)
    requires accesses { length done.now.accesses ≡ 26 }
    requires op { done.now.instr.op ≡ 40 }
    requires pc { done.now.instr.pc ≡ 4096 }
    requires time { done.now.time < 2 ^ 24 }
{
    let block = &mut rows.block[..];
    block[0] = element(done.instr.pc);
    block[1] = element(done.time);
    block[2] = Fe::ONE;
    ShaMainForm::fill(done, &mut block[3..]);
    for t in 0..64 {
        let mut row = [Fe::ZERO; 299];
        fill_round(done, t, &mut row);
        rows.rounds[t] = row;
    }
}

fn filled(done: &StepRecord) -> Rows
    requires accesses { length done.now.accesses ≡ 26 }
    requires op { done.now.instr.op ≡ 40 }
    requires pc { done.now.instr.pc ≡ 4096 }
    requires time { done.now.time < 2 ^ 24 }
{
    let mut rows = Rows {
        block: [Fe::ZERO; 267],
        rounds: [[Fe::ZERO; 299]; 64],
    };
    fill(done, &mut rows);
    rows
}

/// The rows of a step for "abc".
fn first_step(alloc: Global) -> Result<Rows, OutOfMemory> {
    Ok(filled(&step(alloc, 100, 8192, 12288, [0x61, 0x62, 0x63])?))
}

/// And of one for "def", in a block that its state lies in.
fn second_step(alloc: Global) -> Result<Rows, OutOfMemory> {
    Ok(filled(&step(alloc, 200, 12320, 12288, [0x64, 0x65, 0x66])?))
}

/// A column of a round's row, or of the step's own.
fn cell(rows: &Rows, round: Option<usize>, column: usize) -> Fe {
    match round {
        Some(t) if t < 64 && column < 299 => rows.rounds[t][column],
        None if column < 267 => rows.block[column],
        _ => Fe::ZERO,
    }
}

fn set_cell(rows: &mut Rows, round: Option<usize>, column: usize, value: Fe) {
    match round {
        Some(t) if t < 64 && column < 299 => {
            let rounds = &mut rows.rounds[..];
            rounds[t][column] = value;
        }
        None if column < 267 => rows.block[column] = value,
        _ => {}
    }
}

/// What rows break first: a constraint of one of the two tables, a lookup on a bus, or the balance.
#[derive(Clone, Copy, Debug, PartialEq, Eq)]
enum Refusal {
    Nothing,
    Constraint(u32, u32),
    Lookup(u8),
    Unbalanced,
}

/// What a row breaks by itself; its events on the private bus go to `all`.
fn row_breaks(
    alloc: Global,
    table: u32,
    row: &[Fe],
    all: &mut Vec<Event>,
) -> Result<Refusal, OutOfMemory>
    requires known { table < 2 }
    requires wide { length row.now ≡ (sheet_at (sha 8) table).width }
{
    let ext = ShaExtension::new();
    if let Some(place) = ext.first_broken(table, row) {
        return Ok(Refusal::Constraint(table, place));
    }
    let mut list = EventList::new(alloc);
    ext.events(table, row, &mut list)?;
    for event in list.as_slice() {
        if event.bus >= bus::FIRST_PRIVATE {
            all.push(*event)?;
        } else if event.bus >= bus::XOR && count_place(event.bus, &event.tuple).is_none() {
            return Ok(Refusal::Lookup(event.bus));
        }
    }
    Ok(Refusal::Nothing)
}

/// What the rows of a step break by themselves.
fn step_breaks(alloc: Global, rows: &Rows, all: &mut Vec<Event>) -> Result<Refusal, OutOfMemory> {
    let refusal = row_breaks(alloc, 0, &rows.block, all)?;
    if refusal != Refusal::Nothing {
        return Ok(refusal);
    }
    for round in &rows.rounds {
        let refusal = row_breaks(alloc, 1, round, all)?;
        if refusal != Refusal::Nothing {
            return Ok(refusal);
        }
    }
    Ok(Refusal::Nothing)
}

fn breaks(alloc: Global, first: &Rows, second: &Rows) -> Result<Refusal, OutOfMemory> {
    let mut all = Vec::new(alloc);
    for rows in [first, second] {
        let refusal = step_breaks(alloc, rows, &mut all)?;
        if refusal != Refusal::Nothing {
            return Ok(refusal);
        }
    }
    let mut balance = Balance::new(alloc);
    hand_counted(&all, &mut balance)?;
    match balance.least_unbalanced() {
        Some(_) => Ok(Refusal::Unbalanced),
        None => Ok(Refusal::Nothing),
    }
}

#[test]
fn blocks_that_are_filled(rt: HostRuntime) -> Result<(), Fail> {
    let first = first_step(rt.alloc())?;
    let second = second_step(rt.alloc())?;
    assert_eq!(rt; breaks(rt.alloc(), &first, &second)?, Refusal::Nothing);
    for j in 0..8 {
        let bytes = DIGEST[j].to_le_bytes();
        for i in 0..4 {
            assert_eq!(rt;
                cell(&first, None, 109 + 4 * j + i).value(),
                bytes[i] as u32,
                "at {j}"
            );
        }
    }
    Ok(())
}

/// One column of a row of the first step is set: of its own row, or of a round's.
struct Case {
    round: Option<usize>,
    column: usize,
    value: u16,
    refusal: Refusal,
}

const CASES: [Case; 5] = [
    // A round's number, so that its constant is another's.
    Case {
        round: Some(0),
        column: 2,
        value: 1,
        refusal: Refusal::Lookup(5),
    },
    // A bit of a.
    Case {
        round: Some(3),
        column: 5,
        value: 2,
        refusal: Refusal::Constraint(1, 2),
    },
    // A half of the window that the round takes no sum of.
    Case {
        round: Some(10),
        column: 273,
        value: 7,
        refusal: Refusal::Unbalanced,
    },
    // A half of the window's first word.
    Case {
        round: Some(10),
        column: 265,
        value: 7,
        refusal: Refusal::Lookup(4),
    },
    // The lowest limb of the new state.
    Case {
        round: None,
        column: 109,
        value: 1,
        refusal: Refusal::Constraint(0, 2),
    },
];

#[test]
fn blocks_that_are_changed(rt: HostRuntime) -> Result<(), Fail> {
    for case in &CASES {
        let mut first = first_step(rt.alloc())?;
        let second = second_step(rt.alloc())?;
        set_cell(&mut first, case.round, case.column, Fe::of_u16(case.value));
        assert_eq!(rt;
            breaks(rt.alloc(), &first, &second)?,
            case.refusal,
            "at {}",
            case.column
        );
    }
    Ok(())
}

/// A state that no round has reached, and that adds up: the lowest half of the last working variables and the
/// lowest limb of the new state are one more.
#[test]
fn a_state_that_is_not_reached(rt: HostRuntime) -> Result<(), Fail> {
    let mut first = first_step(rt.alloc())?;
    let second = second_step(rt.alloc())?;
    for column in [141, 109] {
        let value = cell(&first, None, column).add(Fe::ONE);
        set_cell(&mut first, None, column, value);
    }
    assert_eq!(rt; breaks(rt.alloc(), &first, &second)?, Refusal::Unbalanced);
    Ok(())
}

/// A round of one block beside those of another.
#[test]
fn rounds_that_are_exchanged(rt: HostRuntime) -> Result<(), Fail> {
    let mut first = first_step(rt.alloc())?;
    let mut second = second_step(rt.alloc())?;
    set_cell(&mut first, Some(5), 1, Fe::of_u16(200));
    set_cell(&mut second, Some(5), 1, Fe::of_u16(100));
    assert_eq!(rt; breaks(rt.alloc(), &first, &second)?, Refusal::Unbalanced);
    Ok(())
}

/// The halves of 428a2f98 are 12184 and 17034.
#[test]
fn constants_by_place(rt: HostRuntime) {
    let first = Tuple::of(&[0, 12184, 17034]);
    assert_eq!(rt; count_place(bus::SHA_CONSTANTS, &first), Some(0));
    let other = Tuple::of(&[1, 12184, 17034]);
    assert_eq!(rt; count_place(bus::SHA_CONSTANTS, &other), None);
}
